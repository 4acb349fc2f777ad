//! Where an item is kept.

/// An item's group, and its number within the group. The group has the item's rank at this number.
#[derive(Clone, Copy)]
pub struct Entry {
    pub group: u32,
    pub at: u32,
}
