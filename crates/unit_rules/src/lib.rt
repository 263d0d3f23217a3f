//! The unit of each module that is accepted is well formed, keeps the rules of the C subset, and has the module's shape:
//! laws of the units of c_unit.
#![tactic(auto)]

mod cases;
mod laws;

pub use cases::shape_cases;
pub use laws::units_are_proper;
