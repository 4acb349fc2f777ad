//! The journal of a desk.

use crate::entries::Entries;
use bt_rows::tables::Tables;
use std::marker::Model;

/// The calls of a desk, and what it was opened with. Contracts see the entries as a list.
pub struct Journal {
    /// The opened tables, before the first call.
    pub opened: Tables,
    /// How many nodes the machine can have at a time, 1 to 32.
    pub seats: u8,
    /// The most entries that the journal takes; 0 if it takes none.
    pub limit: u32,
    /// The calls, oldest first.
    pub entries: Entries,
}

impl Drop for Journal {
    fn drop(self) {
        let Journal {
            opened: _opened,
            seats: _seats,
            limit: _limit,
            entries: _entries,
        } = self;
    }
}

impl Model for Journal {
    ghost use Rattle.batch_desk.specs.Kept.{JournalFields};

    ghost Value = { JournalFields };

    ghost view = { λ j. record {
      opened = j.opened;
      seats = j.seats;
      limit = j.limit;
      entries = j.entries.items;
    } };
}
