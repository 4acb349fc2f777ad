//! The text of an attempt.
ghost use Rattle.std.specs.Prelude.{◌≡◌, ◌+◌, ◌<◌, ◌≤◌, length, [], ◌∷◌, ◌++◌};
ghost use Rattle.run_index.specs.Attempts.{attempt_text, present_text, run_attempt_text};

use bt_base::Id;
use bt_rows::run::RunRow;
use bt_rows::task::TaskRow;
use kept_table::KeyText;
use std::marker::Model;
use text_chains::MOST_BYTES;

/// The text of an attempt of a task, in a value that does not allocate. Contracts see its bytes.
#[derive(Debug, Drop)]
pub struct AttemptText {
    bytes: [u8; MOST_BYTES],
    len: usize,
}

impl Model for AttemptText {
    ghost use Rattle.std.specs.Prelude.{ℕ, List, take, ◌≤◌};

    ghost Value = { List ℕ };

    ghost view = { λ k. take k.len k.bytes };

    ghost invariant = { λ k. k.len ≤ 137 };
}

impl AttemptText {
    /// A text without bytes.
    fn new() -> AttemptText
        ensures { result ≡ [] }
    {
        AttemptText {
            bytes: [0; MOST_BYTES],
            len: 0,
        }
    }

    /// Adds a byte at the end.
    fn push(&mut self, byte: u8)
        requires { length self.old < 137 }
        ensures { self.new ≡ self.old ++ byte ∷ [] }
    {
        self.bytes[self.len] = byte;
        self.len += 1;
    }

    /// Adds bytes at the end.
    fn push_all(&mut self, text: &[u8])
        requires { length self.old + length text.now ≤ 137 }
        ensures { self.new ≡ self.old ++ text.now }
    {
        for byte in text {
            self.push(*byte);
        }
    }

    /// The text of an attempt of the job's task with this id.
    #[tactic(auto, using(crate::proofs::AttemptTexts::number_length))]
    pub fn of(job: &Id, id: &Id, attempt: u64) -> AttemptText
        ensures { result ≡ attempt_text job.now id.now attempt }
    {
        let number = KeyText::of_number(attempt);
        let ids = KeyText::of_ids(job, id);
        let mut text = AttemptText::new();
        text.push_all(number.as_slice());
        text.push_all(ids.as_slice());
        text
    }

    /// The text of the task's present attempt.
    pub fn present(task: &TaskRow) -> AttemptText
        ensures { result ≡ present_text task.now }
    {
        AttemptText::of(&task.job, &task.id, task.attempt)
    }

    /// The text of the attempt that the run is of. None if it names no job or no task.
    pub fn of_run(run: &RunRow) -> Option<AttemptText>
        ensures { result ≡ run_attempt_text run.now }
    {
        match &run.job {
            None => None,
            Some(job) => match &run.task {
                None => None,
                Some(id) => Some(AttemptText::of(job, id, run.attempt)),
            },
        }
    }

    /// The bytes.
    pub fn as_slice(&self) -> &[u8]
        ensures bytes { result.now ≡ self.now }
        ensures short { length self.now ≤ 137 }
    {
        &self.bytes[..self.len]
    }
}
