//! Rows, events and answers of job schedules (Azure: job schedules, in this project's profile), and the definition of the calls and reads
//! that a calendar of them makes (`specs/Turns.antt`). `batch_schedule` makes them.
#![tactic(auto)]

mod answer;
mod event;
mod fire;
mod limits;
mod outcome;
mod period;
mod refusal;
mod row;
mod stage;

pub use answer::{CalAnswer, CalReply};
pub use event::CalEvent;
pub use fire::{Fire, FireCall, FireWord};
pub use limits::{LAST_JOB_NUMBER, SCHEDULE_ID_LIMIT, SCHEDULE_LIMIT, SCHEDULE_TASK_LIMIT};
pub use outcome::{CallOutcome, is_free, outcome_of};
pub use period::{LEAST_PERIOD_MS, Period};
pub use refusal::CalRefusal;
pub use row::{ScheduleRow, Times};
pub use stage::{ScheduleState, Stage};
