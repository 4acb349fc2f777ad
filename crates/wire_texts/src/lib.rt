//! What the program writes: replies and due steps as lines, and the tables as a text. Texts are ASCII but for what callers
//! passed in; words are separated by one space, and lines end with LF. The format is this project's own; names of states and
//! refusals are those of the Azure Batch REST reference where it has them.
#![tactic(auto)]

mod dues;
mod lines;
mod refusals;
mod replies;
mod rows;
mod tables;

pub use dues::write_due;
pub use lines::push_line;
pub use replies::write_reply;
pub use tables::write_tables;
