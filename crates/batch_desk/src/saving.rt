//! Changes that are saved before they are made.
ghost use Rattle.std.specs.Prelude.{◌≡◌, None, IfOk, IfSome, IsSome, OnOk, OnErr};
ghost use Rattle.bt_rows.specs.Changes.{apply_changes};
ghost use Rattle.batch_model.specs.WellFormed.{IsWellFormed};
ghost use Rattle.batch_machine.specs.Machines.{IsMade};
ghost use Rattle.batch_keeper.specs.Told.{told_after, FailsWithCause};
ghost use Rattle.batch_desk.specs.Kept.{Tells};

use batch_keeper::{KeepError, Keeper};
use batch_machine::Machine;
use bt_rows::plan::Plan;
use bt_rows::reply::Reply;
use bt_rows::tables::Change;
use std::alloc::Global;

/// Saves these changes, if there are any.
#[tactic(auto, using(crate::proofs::Saved::told_after_none))]
pub fn save<K: Keeper>(alloc: Global, keeper: &mut K, changes: &[Change]) -> Result<(), KeepError>
    requires { IfSome (K.told keeper.old) (λ s. IsWellFormed (apply_changes changes.now s)) }
    ensures ok { OnOk result (K.told keeper.new ≡ told_after changes.now (K.told keeper.old)) }
    ensures err { OnErr result (K.told keeper.new ≡ K.told keeper.old) }
    ensures cause { FailsWithCause (K.faults keeper.old) (K.faults keeper.new) result }
{
    if changes.is_empty() {
        return Ok(());
    }
    keeper.save(alloc, changes)
}

/// Saves the changes of the reserved plan.
fn save_reserved<K: Keeper>(
    alloc: Global,
    machine: &Machine,
    keeper: &mut K,
) -> Result<(), KeepError>
    requires reserved { IsSome machine.now.reserved }
    requires told { Tells (K.told keeper.old) machine.now.state }
    ensures ok { OnOk result (IfSome machine.now.reserved (λ plan. Tells (K.told keeper.new) (apply_changes plan.changes machine.now.state))) }
    ensures err { OnErr result (Tells (K.told keeper.new) machine.now.state) }
    ensures cause { FailsWithCause (K.faults keeper.old) (K.faults keeper.new) result }
{
    save(alloc, keeper, machine.reserved())
}

/// Makes a plan once it is saved, and returns its reply. A plan that could not be saved is given up.
pub fn make_saved<K: Keeper>(
    alloc: Global,
    machine: &mut Machine,
    keeper: &mut K,
    plan: Plan,
) -> Result<Reply, KeepError>
    requires free { machine.old.reserved ≡ None }
    requires made { IsMade machine.old.seats machine.old.state plan }
    requires told { Tells (K.told keeper.old) machine.old.state }
    ensures reply { IfOk result (λ reply. reply ≡ plan.reply) }
    ensures state { OnOk result (machine.new.state ≡ apply_changes plan.changes machine.old.state) }
    ensures left { OnErr result (machine.new.state ≡ machine.old.state) }
    ensures seats { machine.new.seats ≡ machine.old.seats }
    ensures freed { machine.new.reserved ≡ None }
    ensures told { Tells (K.told keeper.new) machine.new.state }
    ensures cause { FailsWithCause (K.faults keeper.old) (K.faults keeper.new) result }
{
    machine.reserve(alloc, plan)?;
    match save_reserved(alloc, machine, keeper) {
        Ok(()) => Ok(machine.accept()),
        Err(error) => {
            machine.give_up();
            Err(error)
        }
    }
}
