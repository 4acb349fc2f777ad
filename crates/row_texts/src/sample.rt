//! Rows of samples.
ghost use Rattle.std.specs.Prelude.{◌≡◌};
ghost use Rattle.row_texts.specs.Samples.{sample_data, sample_in, sample_plain};

use crate::table_row::TableRow;
use bt_base::{Fail, NoMemory};
use bt_rows::sample::SampleRow;
use row_fields::{ArrayBuilder, RowFault, field_at, require_length};
use serde_json::Value;
use std::alloc::Global;

impl TableRow for SampleRow {
    ghost data_of = { sample_data };

    ghost in_data = { sample_in };

    ghost plain = { sample_plain };

    fn to_value(&self, alloc: Global) -> Result<Value, NoMemory> {
        let array = ArrayBuilder::new(alloc)
            .field(&self.pool)?
            .field(&self.metric)?
            .field(&self.label)?
            .field(&self.value)?;
        Ok(array.into_value())
    }

    #[tactic(auto, unfolding(crate::specs::Samples::sample_in))]
    fn of_value(alloc: Global, value: &Value) -> Result<SampleRow, Fail<RowFault>> {
        require_length(4, value)?;
        let pool = field_at(alloc, 0, value)?;
        let metric = field_at(alloc, 1, value)?;
        let label = field_at(alloc, 2, value)?;
        let value = field_at(alloc, 3, value)?;
        Ok(SampleRow {
            pool,
            metric,
            label,
            value,
        })
    }
}
