//! Closing a shared desk.
ghost use Rattle.std.specs.Prelude.{◌≡◌, ◌≤◌, ◌<◌, All, length, IfOk, IfErr};
ghost use Rattle.batch_desk.specs.Kept.{Tells};
ghost use Rattle.batch_desk.specs.Laws.{KeepsLaws};
ghost use Rattle.batch_desk.specs.History.{IsLegal, after_all, fault_count};
ghost use Rattle.counted_lock.specs.Passes.{IsPassOf};
ghost use Rattle.shared_desk.specs.Sharing.{IsSharedJournal};

use crate::monitor::CallMonitor;
use crate::shared::{Pass, SharedDesk};
use batch_desk::Journal;
use batch_keeper::Keeper;
use counted_lock::PassesOut;

/// A shared desk that was not closed, since not all passes were handed in.
#[derive(Drop)]
pub struct NotClosed<K: Keeper + Drop, M: CallMonitor + Drop> {
    /// The desk, as it was.
    pub desk: SharedDesk<K, M>,
    /// The passes that were handed in, as they were.
    pub passes: Vec<Pass>,
    /// The number of passes that were handed in.
    pub given: usize,
    /// The number of passes that were made, which is greater.
    pub made: u64,
}

impl<K: Keeper + Drop, M: CallMonitor + Drop> SharedDesk<K, M> {
    /// Closes the desk if all passes that were made are handed in, of which there is one at least, and returns its keeper and its journal.
    /// The journal is the shared history without numbers. That history begins with what each pass has seen, and has no call under the number of a pass
    /// that this pass has not seen, and none without a number; no two of the passes have the same number, and there are no calls under
    /// any other number. It is legal and keeps the laws that stand at `Desk::call`, the keeper tells the tables after it, and counted each keeper fault in
    /// it. Otherwise the error returns desk and passes as they were. It does not allocate, and does not wait.
    pub fn close(self, passes: Vec<Pass>) -> Result<(K, Journal), NotClosed<K, M>>
        requires passes { All (IsPassOf self) passes.items }
        ensures shared { IfOk result (λ r. IsSharedJournal r.1 passes.items) }
        ensures some { IfOk result (λ _. 0 < length passes.items) }
        ensures opened { IfOk result (λ r. r.1.opened.state ≡ self.origin.opened) }
        ensures seats { IfOk result (λ r. r.1.seats ≡ self.origin.seats) }
        ensures limit { IfOk result (λ r. r.1.limit ≡ self.origin.limit) }
        ensures within { IfOk result (λ r. length r.1.entries ≤ r.1.limit) }
        ensures legal { IfOk result (λ r. IsLegal r.1.seats r.1.opened.state r.1.entries) }
        ensures laws { IfOk result (λ r. KeepsLaws r.1.seats r.1.opened.state r.1.entries) }
        ensures kept { IfOk result (λ r. Tells (K.told r.0) (after_all r.1.seats r.1.opened.state r.1.entries)) }
        ensures counted { IfOk result (λ r. fault_count r.1.entries ≤ K.faults r.0) }
        ensures untouched { IfErr result (λ o. (o.desk ≡ self) × (o.passes.items ≡ passes.items)) }
        ensures counts { IfErr result (λ o. (o.given ≡ length passes.items) × (o.given < o.made)) }
    {
        let SharedDesk { lock, monitor } = self;
        match lock.close(passes) {
            Ok(desk) => Ok(desk.into_desk().close()),
            Err(out) => {
                let PassesOut {
                    lock,
                    passes,
                    given,
                    made,
                } = out;
                Err(NotClosed {
                    desk: SharedDesk { lock, monitor },
                    passes,
                    given,
                    made,
                })
            }
        }
    }
}
