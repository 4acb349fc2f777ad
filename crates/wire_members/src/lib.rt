//! Readers of the members of a body. A body is a JSON object (RFC 8259); each reader takes a part of it, which is the body or an
//! object in it, and returns the value of one member, or the refusal that names it. A member that is `null` counts as
//! absent, and an absent part has no members (this project's profile).
#![tactic(auto)]

mod body;
mod duration;
mod member;
mod word;
mod words;

pub use body::read_object;
pub use duration::{duration_member, limited_duration_if, limited_duration_member};
pub use member::{
    command_member, count_if, count_member, flag_member, id_item, id_member, invalid_property,
    is_true, list_member, object_item, object_member, required_count, required_list,
    required_object, required_signed, signed_if, signed_member, text_member, unbuilt_member,
};
pub use word::{WordKind, required_word, word_if, word_member};
pub use words::{AllTasksAction, DependencyAction, FailureAction};
