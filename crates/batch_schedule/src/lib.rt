//! A calendar of job schedules over any asker (Azure: job schedules, in this project's profile). After each event the turn of each schedule is
//! run, in which it makes the calls and reads that are due. `schedule_rows` defines them.
#![tactic(auto)]

mod asking;
mod calendar;
mod own;
mod turn;

pub use calendar::Calendar;
