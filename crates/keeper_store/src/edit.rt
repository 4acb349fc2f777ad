//! Edits of a store.
use crate::entries::Entry;
use bt_base::Text;
use row_texts::RowKind;

/// The name of a number that a store has beside the rows.
#[derive(Clone, Copy, Debug, PartialEq, Eq)]
pub enum MetaName {
    /// The number of the next node, `next_node`.
    NextNode,
    /// The number of the next run, `next_run`.
    NextRun,
    /// The last moment, in milliseconds since 1970, `moment`.
    Moment,
    /// The version of the form of the rows, `version`.
    Version,
}

/// One edit of a store.
#[derive(Debug, Drop)]
pub enum Edit {
    /// Puts an entry of this kind. It replaces the one with its key, or else goes to the end of its kind.
    Put(RowKind, Entry),
    /// Drops the entry of this kind with this key, if there is one.
    Drop(RowKind, Text),
    /// Sets the number of this name.
    Meta(MetaName, u64),
}
