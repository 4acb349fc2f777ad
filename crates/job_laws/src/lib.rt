//! Laws of jobs over single steps of the model: a job that is completed or being deleted stays so until its row is gone, and only an event
//! that adds a job with its id makes another one. There is no code: the clause of a function is the law.
#![tactic(auto)]

ghost use Rattle.job_laws.specs.OverJobs.{DueStepsKeepOver, EventsKeepOver};

/// After an event a job that was completed, being deleted or not there is so still, unless the event adds one with its id.
pub fn an_event_keeps_a_job_over()
    ensures { EventsKeepOver }
{}

/// After a due step on sound tables a job that was completed, being deleted or not there is so still.
pub fn a_due_step_keeps_a_job_over()
    ensures { DueStepsKeepOver }
{}
