//! The ids of nodes.
ghost use Rattle.std.specs.Prelude.{◌≡◌, IfOk};
ghost use Rattle.wire_words.specs.Nodes.{node_id};

use bt_base::{Fail, Id, NoMemory};
use std::alloc::Global;

/// The id of the node with this number: `node-` and the digits of the number (this project's own). It fails only when out of
/// memory.
#[tactic(auto, unfolding(crate::specs::Nodes::node_id), using(crate::proofs::NodeIds::node_id_read))]
pub fn node_id(alloc: Global, number: u64) -> Result<Id, NoMemory>
    ensures { IfOk result (λ id. id ≡ node_id number) }
{
    let text = format!(in alloc; "node-{number}")?;
    match Id::read(alloc, text.as_str()) {
        Ok(id) => Ok(id),
        Err(Fail::Memory) => Err(NoMemory),
        Err(Fail::Why(_)) => unreachable!(),
    }
}
