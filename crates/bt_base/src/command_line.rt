//! Command lines.
ghost use Rattle.std.specs.Prelude.{◌≡◌, ℕ, List, Option, IfOk, is_ok, true};
ghost use Rattle.bt_base.specs.CommandLines.{Piece, read_words, is_command_line, command_line_of};
ghost use Rattle.bt_base.specs.WordSteps.{adds, is_line_behind};

use crate::list::Duplicate;
use crate::memory::NoMemory;
use crate::quoting::{Found, Stand, step};
use crate::text::Text;
use std::alloc::{AllocError, Global};
use std::marker::Model;

/// The greatest count of bytes in a command line (this project's profile).
pub const MAX_COMMAND_LINE_BYTES: usize = 8192;

/// A command line: at most 8,192 bytes, with at least one word and no open quote (this project's profile). Contracts see
/// it as its bytes.
#[derive(Debug)]
pub struct CommandLine {
    text: Text,
}

impl Drop for CommandLine {
    fn drop(self) {
        let CommandLine { text: _text } = self;
    }
}

impl Model for CommandLine {
    ghost use Rattle.std.specs.Prelude.{◌≡◌, ℕ, List, true};
    ghost use Rattle.bt_base.specs.CommandLines.{is_command_line};

    ghost Value = { List ℕ };

    ghost view = { λ l. l.text };

    ghost invariant = { λ l. is_command_line l.text ≡ true };
}

impl CommandLine {
    /// The command line that the text is; None if it has more than 8,192 bytes, no word, or a quote that is not closed.
    pub fn read(alloc: Global, text: &str) -> Result<Option<CommandLine>, NoMemory>
        ensures { IfOk result (λ line. line ≡ command_line_of text.now) }
    {
        if !is_command_line(text) {
            return Ok(None);
        }
        Ok(Some(CommandLine {
            text: Text::of_string(String::from_str(alloc, text)?)?,
        }))
    }

    /// The command line as a text. It does not allocate.
    pub fn as_str(&self) -> &str
        ensures { result.now ≡ self.now }
    {
        self.text.as_str()
    }

    /// Tells callers that the text is a command line. It does nothing at run time.
    pub fn known(&self)
        ensures { is_command_line self.now ≡ true }
    {
        let _ = &self.text;
    }
}

impl Clone for CommandLine {
    ghost is_clone = { λ line copy. copy ≡ line };

    fn clone(&self) -> Result<CommandLine, AllocError> {
        Ok(CommandLine {
            text: self.text.clone()?,
        })
    }
}

impl Duplicate for CommandLine {
    fn copy(&self) -> Result<CommandLine, NoMemory> {
        Ok(self.clone()?)
    }
}

/// Whether a text is a command line: at most 8,192 bytes, with at least one word and no open quote. It does not allocate.
#[tactic(auto, unfolding(crate::specs::CommandLines::is_command_line))]
pub fn is_command_line(text: &str) -> bool
    ensures { result ≡ is_command_line text.now }
{
    let bytes = text.as_bytes();
    bytes.len() <= MAX_COMMAND_LINE_BYTES && has_words(bytes)
}

/// Whether there is a word and no open quote.
fn has_words(bytes: &[u8]) -> bool
    ensures { result ≡ is_ok (read_words bytes.now) }
{
    let mut stand = Stand::Outside;
    let mut has_word = false;
    for byte in bytes {
        let (next, found) = step(stand, *byte);
        has_word = has_word_after(has_word, found);
        stand = next;
    }
    has_word && stand == Stand::Outside
}

/// Whether there is a word after a byte that gave this.
fn has_word_after(has_word: bool, found: Found) -> bool
    ensures { (pieces : Option (List Piece)) → is_line_behind has_word (adds found pieces) ≡ is_line_behind result pieces }
{
    match found {
        Found::Nothing | Found::Gap => has_word,
        Found::Mark | Found::Letter(_) | Found::Slashed(_) => true,
    }
}
