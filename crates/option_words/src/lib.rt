//! The options of a command line, read by `clap`: each is a name with a value, as `--name value` or as `--name=value`, in any
//! order, each at most once. What `clap` takes is proved to be what the grammar of options takes, for any list of names.
#![tactic(auto)]

mod options;

pub use options::{read_options, value_of};
