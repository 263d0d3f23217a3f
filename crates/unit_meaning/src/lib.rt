//! The units of a linked set link, are instantiated as its modules are, and do what these do, both ways: laws of the units
//! of c_unit.
#![tactic(auto)]

mod laws;

pub use laws::{
    units_are_instantiated_alike, units_do_what_modules_do, units_of_a_linked_set_link,
};
