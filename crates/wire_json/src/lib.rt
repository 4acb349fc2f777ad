//! Replies as JSON (RFC 8259), as the kit's `serde_json` writes it without spaces. The members of an object are in the order of the
//! bytes of their names, which are those of the Azure Batch REST reference where it has them.
#![tactic(auto)]

mod element;
mod item;
mod parts;
mod reply;

pub use reply::reply_json;
