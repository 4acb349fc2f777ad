//! The words of the command line: the command that they are, with its options and the path of its store. The options are read by
//! `clap`, which takes exactly the words of the grammar of options; their numbers and the word of `drill` are read here. Commands
//! and options are this project's own.
#![tactic(auto)]

mod command;
mod command_name;
mod number;
mod values;
mod words;

pub use command::{
    CONNECTION_LIMIT, Command, DEFAULT_DOORS, DEFAULT_PORT, DEFAULT_SEATS, DOOR_LIMIT, DRILL_LIMIT,
    FormulaOptions, Invocation, JOURNAL_LIMIT, PORT_LIMIT, ReplayOptions, ServeOptions,
};
pub use words::read_command;
