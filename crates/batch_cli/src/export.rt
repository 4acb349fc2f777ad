//! The command `export`.
ghost use Rattle.std.specs.Prelude.{◌≡◌, ◌≤◌};
ghost use Rattle.bt_base.specs.Causes.{Rose};
ghost use Rattle.batch_cli.specs.Headline.{RanExport, WritesNothing};

use crate::replay::finish;
use crate::status::Status;
use crate::stopped::Stopped;
use batch_keeper::{KeepError, Keeper};
use byte_streams::Sink;
use std::alloc::Global;

/// Writes the tables text of the tables that the keeper loads, without opening them, and returns the keeper.
pub fn export<W: Sink, K: Keeper + Drop>(alloc: Global, sink: &mut W, mut keeper: K) -> (Status, K)
    ensures ran { RanExport
        (record {
          taken_before = W.taken sink.old;
          taken_now = W.taken sink.new;
          loaded = K.told keeper;
          kept = K.told result.1;
          faults_before = K.faults keeper;
          faults_now = K.faults result.1;
        }) result.0 }
    ensures unwritten { WritesNothing result.0 → ⊥ }
    ensures later { K.faults keeper ≤ K.faults result.1 }
    ensures sink_fault { result.0 ≡ Status.SinkFault → Rose (W.faults sink.old) (W.faults sink.new) }
    ensures keeper_fault { result.0 ≡ Status.KeeperFault → Rose (K.faults keeper) (K.faults result.1) }
{
    let status = match keeper.load(alloc) {
        Err(KeepError::Memory) => Status::Memory,
        Err(KeepError::Failed) => Status::KeeperFault,
        Ok(tables) => {
            let finished = finish(alloc, &tables, sink);
            drop(tables);
            match finished {
                Err(Stopped::Memory) => Status::Memory,
                Err(Stopped::SinkFault) => Status::SinkFault,
                Ok(()) => Status::Done,
            }
        }
    };
    (status, keeper)
}
