//! What a command line of crun asks for over what its files hold: linked units and calls of their
//! functions, or why it is refused, with the line that says so and the status.
#![tactic(auto)]

mod calls_file;
mod checking;
mod law;
mod line;
mod linking;
mod refusal;
mod stop;
mod task;

pub use calls_file::NamedCall;
pub use checking::check_units;
pub use law::{
    hosts_say_nothing, one_list_of_units, one_refused_text, one_refused_unit, one_texts_job,
};
pub use line::report;
pub use linking::link_units;
pub use refusal::{CallsRefusal, UnitsRefusal};
pub use stop::{Cause, Stop, stop_of};
pub use task::{Task, stop_at};
