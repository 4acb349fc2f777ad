//! Lines of scripts: the request that a line is and its moment, and the lines of a script. The format is this project's own.
#![tactic(auto)]

mod arguments;
mod ending;
mod line;
mod look;
mod parts;
mod sample;
mod script;

pub use arguments::{UNREADABLE, lone_id};
pub use ending::read_moment;
pub use line::{LINE_LIMIT, LineRequest, is_skipped, read_line, read_request_at};
pub use parts::{split_two, split_word};
pub use script::split_line;
