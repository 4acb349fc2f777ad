//! Child programs of the system, as spawners start them and stoppers ask them to stop. Each run has a folder of its own, with the files
//! of its standard output and error and with the working folder of its child program, whose environment is the service's and the names
//! of the run. Nothing is written to its standard input, which is open until the child program ends or is asked to stop. A spawner and a
//! stopper over one table of standard inputs belong together. The end of each run is a line of a list. Contracts see spawners and
//! stoppers as their counts of faults, and nothing else of them.
#![tactic(auto)]

mod environment;
mod fault;
mod folders;
mod inputs;
mod instants;
mod list_file;
mod monitor;
mod not_started;
mod run_list;
mod run_paths;
mod spawner;
mod starting;
mod stopper;
mod table;
mod waits;

pub use folders::ServiceFolders;
pub use instants::instant_text;
pub use monitor::StartMonitor;
pub use spawner::ProgramSpawner;
pub use stopper::ProgramStopper;
pub use table::ProgramTable;
