//! Rows of scalings of pools.
ghost use Rattle.std.specs.Prelude.{◌≡◌};
ghost use Rattle.row_texts.specs.Scales.{scale_data, scale_in, scale_plain};

use crate::table_row::TableRow;
use bt_base::{Fail, NoMemory};
use bt_rows::scale::ScaleRow;
use row_fields::{ArrayBuilder, RowFault, field_at, option_at, require_length};
use serde_json::Value;
use std::alloc::Global;

impl TableRow for ScaleRow {
    ghost data_of = { scale_data };

    ghost in_data = { scale_in };

    ghost plain = { scale_plain };

    fn to_value(&self, alloc: Global) -> Result<Value, NoMemory> {
        let array = ArrayBuilder::new(alloc)
            .field(&self.pool)?
            .field(&self.formula)?
            .field(&self.interval)?
            .field(&self.next)?
            .option(&self.last)?;
        Ok(array.into_value())
    }

    #[tactic(auto, unfolding(crate::specs::Scales::scale_in))]
    fn of_value(alloc: Global, value: &Value) -> Result<ScaleRow, Fail<RowFault>> {
        require_length(5, value)?;
        let pool = field_at(alloc, 0, value)?;
        let formula = field_at(alloc, 1, value)?;
        let interval = field_at(alloc, 2, value)?;
        let next = field_at(alloc, 3, value)?;
        let last = option_at(alloc, 4, value)?;
        Ok(ScaleRow {
            pool,
            formula,
            interval,
            next,
            last,
        })
    }
}
