//! Rows of pools.
ghost use Rattle.std.specs.Prelude.{◌≡◌};
ghost use Rattle.serde_json.specs.View.{view};
ghost use Rattle.bt_base.specs.Fails.{Gives};
ghost use Rattle.row_texts.specs.Pools.{pool_data, pool_in, pool_plain, pool_resize_in};

use crate::table_row::TableRow;
use bt_base::{Dealloc, Fail, NoMemory};
use bt_rows::pool::{PoolRow, ResizeError};
use row_fields::{ArrayBuilder, RowFault, field_at, option_at, require_length};
use serde_json::Value;
use std::alloc::Global;

/// The fields of a pool's row on its size, and on the present or the last resize.
#[derive(Drop)]
struct PoolResize {
    dedicated: u32,
    low: u32,
    option: Dealloc,
    usual_timeout: u64,
    timeout: u64,
    began: u64,
    error: Option<ResizeError>,
}

/// The resize in the JSON of a pool's row.
#[tactic(auto, unfolding(crate::specs::Pools::pool_resize_in))]
fn pool_resize_in(allocator: Global, value: &Value) -> Result<PoolResize, Fail<RowFault>>
    ensures { Gives result (pool_resize_in (view value.now)) }
{
    let dedicated = field_at(allocator, 7, value)?;
    let low = field_at(allocator, 8, value)?;
    let option = field_at(allocator, 9, value)?;
    let usual_timeout = field_at(allocator, 10, value)?;
    let timeout = field_at(allocator, 11, value)?;
    let began = field_at(allocator, 12, value)?;
    let error = option_at(allocator, 13, value)?;
    Ok(PoolResize {
        dedicated,
        low,
        option,
        usual_timeout,
        timeout,
        began,
        error,
    })
}

impl TableRow for PoolRow {
    ghost data_of = { pool_data };

    ghost in_data = { pool_in };

    ghost plain = { pool_plain };

    fn to_value(&self, allocator: Global) -> Result<Value, NoMemory> {
        let array = ArrayBuilder::new(allocator)
            .field(&self.id)?
            .field(&self.deleting)?
            .field(&self.alloc)?
            .field(&self.slots)?
            .field(&self.fill)?
            .field(&self.inter)?
            .option(&self.start)?
            .field(&self.dedicated)?
            .field(&self.low)?
            .field(&self.option)?
            .field(&self.usual_timeout)?
            .field(&self.timeout)?
            .field(&self.began)?
            .option(&self.error)?
            .option(&self.enabled)?;
        Ok(array.into_value())
    }

    #[tactic(auto, unfolding(crate::specs::Pools::pool_in))]
    fn of_value(allocator: Global, value: &Value) -> Result<PoolRow, Fail<RowFault>> {
        require_length(15, value)?;
        let id = field_at(allocator, 0, value)?;
        let deleting = field_at(allocator, 1, value)?;
        let alloc = field_at(allocator, 2, value)?;
        let slots = field_at(allocator, 3, value)?;
        let fill = field_at(allocator, 4, value)?;
        let inter = field_at(allocator, 5, value)?;
        let start = option_at(allocator, 6, value)?;
        let resize = pool_resize_in(allocator, value)?;
        let enabled = option_at(allocator, 14, value)?;
        Ok(PoolRow {
            id,
            deleting,
            alloc,
            slots,
            fill,
            inter,
            start,
            dedicated: resize.dedicated,
            low: resize.low,
            option: resize.option,
            usual_timeout: resize.usual_timeout,
            timeout: resize.timeout,
            began: resize.began,
            error: resize.error,
            enabled,
        })
    }
}
