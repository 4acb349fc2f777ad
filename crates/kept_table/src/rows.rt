//! The rows of a table one after another.
ghost use Rattle.std.specs.Prelude.{◌≡◌};
ghost use Rattle.std.specs.Iterator.{YieldsFirstRef, item_count};
ghost use Rattle.kept_table.specs.Slots.{rows};

use bt_base::Shared;
use std::marker::Model;

/// The rows of a table in the order of adding. Contracts see those that are still to come.
#[derive(Drop)]
pub struct Rows<'a, R> {
    left: &'a [Option<Shared<R>>],
}

impl<'a, R> Model for Rows<'a, R> {
    ghost use Rattle.std.specs.Prelude.{List};
    ghost use Rattle.kept_table.specs.Slots.{rows};

    ghost Value = { List R };

    ghost view = { λ r. rows r.left.now };
}

impl<'a, R> Rows<'a, R> {
    /// The rows in these slots.
    pub(crate) fn of(slots: &'a [Option<Shared<R>>]) -> Rows<'a, R>
        ensures { result ≡ rows slots.now }
    {
        Rows { left: slots }
    }
}

impl<'a, R> Iterator for Rows<'a, R> {
    type Item = &'a R;

    ghost next_gives = { YieldsFirstRef (λ left. left) };

    ghost remaining = { item_count (λ left. left) };

    fn next(&mut self) -> Option<&'a R> {
        while let Some((slot, others)) = self.left.split_first() {
            self.left = others;
            if let Some(row) = slot {
                return Some(row.get());
            }
        }
        None
    }
}
