//! Laws of the definition of schedules: each makes at most one job for an occurrence, and fires when it is due. There is no code: the clause of
//! a function is the law.
#![tactic(auto)]

ghost use Rattle.schedule_laws.specs.Laws.{BegunMakesOneEach, CutMakesOneAtMost, DueIsGreatest, FiresWhenDue, MakesOneAtMost, MakesOneAnOccurrence, TurnsMakeOneEach};

/// In its turn a schedule makes at most one job, and only for the occurrence that is due, which is after the last one it made a job for and is
/// its last one from then on. If it made a job before, it makes one only after a read showed that job completed or not there.
pub fn a_turn_makes_one_job_at_most()
    ensures { MakesOneAtMost }
{}

/// In a turn that was cut short because memory ran out a schedule also makes at most one job, and its number and its last occurrence are those
/// of a whole turn.
pub fn a_turn_cut_short_makes_one_job_at_most()
    ensures { CutMakesOneAtMost }
{}

/// In the turns of all schedules each one makes at most one job, as it would alone.
pub fn each_schedule_makes_one_job_at_most()
    ensures { TurnsMakeOneEach }
{}

/// The occurrence that is due is the greatest one at or before the moment.
pub fn the_greatest_occurrence_is_due()
    ensures { DueIsGreatest }
{}

/// Over all its turns, those that were cut short too, a schedule makes at most one job for each occurrence, in order, and each after the first
/// only after a read showed the previous one completed or not there.
pub fn a_schedule_makes_one_job_an_occurrence()
    ensures { MakesOneAnOccurrence }
{}

/// A schedule that is to fire requests its job in its turn.
pub fn a_schedule_fires_when_it_is_due()
    ensures { FiresWhenDue }
{}

/// In a call that stopped because memory ran out each schedule also makes at most one job.
pub fn a_begun_call_makes_one_job_each_at_most()
    ensures { BegunMakesOneEach }
{}
