//! The words of wast_run's command line, read with `clap`, and assertion scripts: what their JSON text, read with `serde_json`,
//! says as commands, or why it is none; and the line and the status that go with each reason to stop.
#![tactic(auto)]

mod cases;
mod command;
mod fault;
mod forms;
mod kind;
mod law;
mod line;
mod members;
mod script;
mod stop;
mod value;
mod words;

pub use cases::{
    commands_of_values, lines_that_are_read, lines_that_are_refused, texts_of_scripts,
    values_of_objects,
};
pub use command::{Call, Command, ModuleFile};
pub use fault::ScriptFault;
pub use law::one_reading;
pub use line::report;
pub use script::{Script, read_script};
pub use stop::Stop;
pub use words::{Line, read_words};
