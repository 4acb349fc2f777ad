//! Rows of preparations.
ghost use Rattle.std.specs.Prelude.{◌≡◌};
ghost use Rattle.row_texts.specs.Preps.{prep_data, prep_in, prep_plain};

use crate::table_row::TableRow;
use bt_base::{Fail, NoMemory};
use bt_rows::prep::PrepRow;
use row_fields::{ArrayBuilder, RowFault, field_at, require_length};
use serde_json::Value;
use std::alloc::Global;

impl TableRow for PrepRow {
    ghost data_of = { prep_data };

    ghost in_data = { prep_in };

    ghost plain = { prep_plain };

    fn to_value(&self, alloc: Global) -> Result<Value, NoMemory> {
        let array = ArrayBuilder::new(alloc)
            .field(&self.job)?
            .field(&self.node)?
            .field(&self.state)?
            .field(&self.tries)?
            .field(&self.ran)?
            .field(&self.release)?;
        Ok(array.into_value())
    }

    #[tactic(auto, unfolding(crate::specs::Preps::prep_in))]
    fn of_value(alloc: Global, value: &Value) -> Result<PrepRow, Fail<RowFault>> {
        require_length(6, value)?;
        let job = field_at(alloc, 0, value)?;
        let node = field_at(alloc, 1, value)?;
        let state = field_at(alloc, 2, value)?;
        let tries = field_at(alloc, 3, value)?;
        let ran = field_at(alloc, 4, value)?;
        let release = field_at(alloc, 5, value)?;
        Ok(PrepRow {
            job,
            node,
            state,
            tries,
            ran,
            release,
        })
    }
}
