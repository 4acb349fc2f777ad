//! The top call of the program: what its words ask, done over a source, a sink and a keeper of the tables. Its contract is
//! the theorem of the whole program: the bytes that the sink takes and the tables that the keeper tells are those of the
//! defined machines, called one by one in one history.
#![tactic(auto)]

mod cal_answer;
mod calendar;
mod call;
mod drill;
mod export;
mod formula;
mod line;
mod message;
mod replay;
mod run;
mod status;
mod stopped;
mod tally;

pub use call::show_answer;
pub use run::run_words;
pub use status::Status;
