//! What a machine answers to an event.
ghost use Rattle.std.specs.Prelude.{◌≡◌, Ok, Err, IfOk, IsErr};
ghost use Rattle.bt_base.specs.declared.fail.Fail.TheVariants.{Memory};
ghost use Rattle.batch_model.specs.Steps.{Answered};
ghost use Rattle.machine_plans.specs.Plans.{IsAnswer, IsPlanOf};

use crate::plan::refuse;
use bt_base::{Fail, NoMemory};
use bt_rows::plan::Plan;
use bt_rows::refusal::Refusal;
use bt_rows::tables::Tables;
use std::alloc::Global;

/// The plan that a machine answered, or that of its refusal, which changes the last moment alone. Its only error is out of memory.
pub fn or_refused(
    alloc: Global,
    tables: &Tables,
    now: u64,
    answer: Result<Plan, Fail<Refusal>>,
) -> Result<Plan, NoMemory>
    ensures plan { (answered : Answered) → IsAnswer now answered tables.now.state answer → IfOk result (IsPlanOf answered tables.now.state) }
    ensures kept { (plan : Plan) → answer ≡ Ok plan → result ≡ Ok plan }
    ensures memory { answer ≡ Err Memory → IsErr result }
{
    match answer {
        Ok(plan) => Ok(plan),
        Err(Fail::Why(refusal)) => refuse(alloc, tables, now, refusal),
        Err(Fail::Memory) => Err(NoMemory),
    }
}
