//! Names from a file, as they are shown to a user.
use std::fmt;

/// The greatest count of characters of a name that is shown.
const MAX_SHOWN: usize = 60;

/// A name on one line: at most its first 60 characters, with `?` for each control character.
#[derive(Clone, Copy)]
pub struct Shown<'a>(pub &'a str);

impl fmt::Display for Shown<'_> {
    fn fmt<W: fmt::Write>(&self, f: &mut fmt::Formatter<W>) -> fmt::Result {
        for character in self.0.chars().take(MAX_SHOWN) {
            let shown = if character.is_control() {
                '?'
            } else {
                character
            };
            f.write_char(shown)?;
        }
        Ok(())
    }
}
