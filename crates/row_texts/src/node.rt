//! Rows of nodes.
ghost use Rattle.std.specs.Prelude.{◌≡◌};
ghost use Rattle.row_texts.specs.Nodes.{node_data, node_in, node_plain};

use crate::table_row::TableRow;
use bt_base::{Fail, NoMemory};
use bt_rows::node::NodeRow;
use row_fields::{ArrayBuilder, RowFault, field_at, require_length};
use serde_json::Value;
use std::alloc::Global;

impl TableRow for NodeRow {
    ghost data_of = { node_data };

    ghost in_data = { node_in };

    ghost plain = { node_plain };

    fn to_value(&self, alloc: Global) -> Result<Value, NoMemory> {
        let array = ArrayBuilder::new(alloc)
            .field(&self.number)?
            .field(&self.pool)?
            .field(&self.seat)?
            .field(&self.stage)?
            .field(&self.tries)?;
        Ok(array.into_value())
    }

    #[tactic(auto, unfolding(crate::specs::Nodes::node_in))]
    fn of_value(alloc: Global, value: &Value) -> Result<NodeRow, Fail<RowFault>> {
        require_length(5, value)?;
        let number = field_at(alloc, 0, value)?;
        let pool = field_at(alloc, 1, value)?;
        let seat = field_at(alloc, 2, value)?;
        let stage = field_at(alloc, 3, value)?;
        let tries = field_at(alloc, 4, value)?;
        Ok(NodeRow {
            number,
            pool,
            seat,
            stage,
            tries,
        })
    }
}
