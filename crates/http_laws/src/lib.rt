//! Laws of the relation between the bytes of a connection, its exchanges and its end (http_serving, `specs/Connection.antt`):
//! the bytes tell what is read of them. With these laws and the contract of `serve_link`, what is written and the end are a
//! function of the bytes, of the responses, and, in the one case that `specs/Ends.antt` names, of the kit's `httparse`.
//! Each law is the contract of a function without a body.
#![tactic(auto)]

mod laws;

pub use laws::{
    ends_agree, every_message_is_answered, one_message, only_faults_before_a_message,
    only_origins_are_refused, origins_are_refused, targets_are_truncated,
};
