//! The operations of the profile, those of the Azure Batch REST reference: their names, which of them have a body, and the event that
//! each is with the ids of what it is asked of and the bytes of its body. A line's word and a route's method each name one of them.
#![tactic(auto)]

mod event;
mod operation;

pub use operation::{
    Asked, BodyRule, JobOperation, Operation, PoolOperation, ServiceOperation, TaskOperation,
    read_operation,
};
