//! What becomes of the tasks of a node that leaves its pool.
ghost use Rattle.std.specs.Prelude.{◌≡◌};
ghost use Rattle.bt_base.specs.DeallocOptions.{option_word, option_named};

/// What becomes of the running tasks of a node that leaves its pool (Azure Batch REST reference,
/// `ComputeNodeDeallocationOption`).
#[derive(Clone, Copy, Debug, PartialEq, Eq)]
pub enum Dealloc {
    /// They are stopped, and run again on another node.
    Requeue,
    /// They are stopped, and do not run again.
    Terminate,
    /// The node leaves once they have ended.
    TaskCompletion,
    /// The node leaves once they have ended and the time that their data are kept is over.
    RetainedData,
}

/// An option's word. It does not allocate.
#[tactic(auto, unfolding(crate::specs::DeallocOptions::option_word))]
pub fn option_word(option: Dealloc) -> &'static str
    ensures { result.now ≡ option_word option }
{
    match option {
        Dealloc::Requeue => "requeue",
        Dealloc::Terminate => "terminate",
        Dealloc::TaskCompletion => "taskcompletion",
        Dealloc::RetainedData => "retaineddata",
    }
}

/// The option of this word, in lower-case letters; None for another word. It does not allocate.
#[tactic(auto, unfolding(crate::specs::DeallocOptions::option_named))]
pub fn option_named(word: &[u8]) -> Option<Dealloc>
    ensures { result ≡ option_named word.now }
{
    if word == b"requeue".as_slice() {
        Some(Dealloc::Requeue)
    } else if word == b"terminate".as_slice() {
        Some(Dealloc::Terminate)
    } else if word == b"taskcompletion".as_slice() {
        Some(Dealloc::TaskCompletion)
    } else if word == b"retaineddata".as_slice() {
        Some(Dealloc::RetainedData)
    } else {
        None
    }
}
