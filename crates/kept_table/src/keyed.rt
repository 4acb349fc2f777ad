//! Rows with keys.
ghost use Rattle.std.specs.Prelude.{◌≡◌, ℕ, Bool, List};
ghost use Rattle.kept_table.specs.Keys.{AreTexts};

use crate::key_text::KeyText;
use bt_base::Shared;

/// A row that is known by its key. Keys are compared by their texts.
pub trait Keyed: Drop {
    /// What a row is asked for by.
    type Key;

    ghost has_key: { Self.Key → Self → Bool };

    ghost same_key: { Self → Self → Bool };

    ghost key_text: { Self.Key → List ℕ };

    ghost row_text: { Self → List ℕ };

    /// The text of a key.
    fn key_text(key: &Self::Key) -> KeyText
        ensures { result ≡ key_text key.now };

    /// The text of the row's key.
    fn row_text(&self) -> KeyText
        ensures { result ≡ row_text self.now };

    /// A row has a key, and two rows have the same key, exactly if the texts are the same.
    ghost texts_decide: { AreTexts has_key same_key key_text row_text };
}

/// A shared row is known by its row's key.
impl<R: Keyed> Keyed for Shared<R> {
    type Key = R::Key;

    ghost has_key = { R.has_key };

    ghost same_key = { R.same_key };

    ghost key_text = { R.key_text };

    ghost row_text = { R.row_text };

    ghost texts_decide = { R.texts_decide };

    fn key_text(key: &R::Key) -> KeyText {
        R::key_text(key)
    }

    fn row_text(&self) -> KeyText {
        self.get().row_text()
    }
}
