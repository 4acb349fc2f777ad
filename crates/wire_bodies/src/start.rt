//! Start tasks in the body of `add-pool`.
ghost use Rattle.std.specs.Prelude.{◌≡◌, true, option_map, IfOk};
ghost use Rattle.serde_json.specs.View.{view};
ghost use Rattle.bt_base.specs.Fails.{Gives};
ghost use Rattle.bt_rows.specs.Ranges.{is_start_in_range, passes_if_some};
ghost use Rattle.wire_bodies.specs.Starts.{start_in, start_if};

use bt_base::Fail;
use bt_rows::limits::RETRY_LIMIT;
use bt_rows::member::Member;
use bt_rows::pool::StartTask;
use bt_rows::refusal::Refusal;
use serde_json::Value;
use std::alloc::Global;
use wire_members::{command_member, flag_member, signed_member};

/// The start task that the members of an object are.
#[tactic(auto, unfolding(crate::specs::Starts::start_in))]
fn start(alloc: Global, part: &Value) -> Result<StartTask, Fail<Refusal>>
    ensures value { Gives result (start_in (view part.now)) }
    ensures kept { IfOk result (λ start. is_start_in_range start ≡ true) }
{
    let line = command_member(alloc, Some(part), Member::CommandLine)?;
    let retry_limit = i64::from(RETRY_LIMIT);
    let retries = signed_member(Some(part), Member::MaxTaskRetryCount, -1, retry_limit, 0)?;
    let wait = flag_member(Some(part), Member::WaitForSuccess, true)?;
    Ok(StartTask {
        line,
        retries: retries as i32,
        wait,
    })
}

/// The start task that an object is, None if there is no object (Azure: startTask): `commandLine`, `maxTaskRetryCount` from -1,
/// for no limit, to 1,000,000 (default 0), and `waitForSuccess` (default true). A member that is of a wrong kind or out of range
/// and an absent `commandLine` are `InvalidPropertyValue` with its name. It fails with `Memory` when out of memory.
#[tactic(auto, unfolding(crate::specs::Starts::start_if))]
pub fn start_if(alloc: Global, part: Option<&Value>) -> Result<Option<StartTask>, Fail<Refusal>>
    ensures value { Gives result (start_if (option_map (λ v. view v.now) part.entry)) }
    ensures kept { IfOk result (λ start. passes_if_some is_start_in_range start ≡ true) }
{
    match part {
        None => Ok(None),
        Some(part) => Ok(Some(start(alloc, part)?)),
    }
}
