//! Members that are words, in upper or lower case.
ghost use Rattle.std.specs.Prelude.{◌≡◌, ℕ, List, Option, option_map};
ghost use Rattle.serde_json.specs.View.{view};
ghost use Rattle.bt_base.specs.Fails.{Gives};
ghost use Rattle.wire_members.specs.Members.{word_member, required_word, word_if};

use crate::member::{invalid_property, member};
use bt_base::Fail;
use bt_rows::member::Member;
use bt_rows::refusal::Refusal;
use serde_json::Value;

/// A type whose values are named by words.
pub trait WordKind: Copy + Drop {
    // the value that a text names
    ghost of_text: { List ℕ → Option Self };

    /// The value that the word names, in upper or lower case, if it names one. It does not allocate.
    fn of_text(text: &str) -> Option<Self>
        ensures { result ≡ of_text text.now };
}

/// A word; the default if it is absent. Another value is `InvalidPropertyValue(name)`.
pub fn word_member<W: WordKind>(
    part: Option<&Value>,
    name: Member,
    default: W,
) -> Result<W, Fail<Refusal>>
    ensures { Gives result (word_member W.of_text (option_map (λ v. view v.now) part.entry) name default) }
{
    match member(part, name) {
        None => Ok(default),
        Some(value) => value
            .as_str()
            .and_then(|t| W::of_text(t))
            .ok_or(invalid_property(name)),
    }
}

/// A word, which is required. An absent one and another value are `InvalidPropertyValue(name)`.
pub fn required_word<W: WordKind>(part: Option<&Value>, name: Member) -> Result<W, Fail<Refusal>>
    ensures { Gives result (required_word W.of_text (option_map (λ v. view v.now) part.entry) name) }
{
    match member(part, name) {
        None => Err(invalid_property(name)),
        Some(value) => value
            .as_str()
            .and_then(|t| W::of_text(t))
            .ok_or(invalid_property(name)),
    }
}

/// A word; None if it is absent. Another value is `InvalidPropertyValue(name)`.
pub fn word_if<W: WordKind>(part: Option<&Value>, name: Member) -> Result<Option<W>, Fail<Refusal>>
    ensures { Gives result (word_if W.of_text (option_map (λ v. view v.now) part.entry) name) }
{
    match member(part, name) {
        None => Ok(None),
        Some(value) => match value.as_str().and_then(|t| W::of_text(t)) {
            Some(word) => Ok(Some(word)),
            None => Err(invalid_property(name)),
        },
    }
}
