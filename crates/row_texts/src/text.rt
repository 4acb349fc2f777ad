//! Rows of one type as texts.
ghost use Rattle.std.specs.Prelude.{◌≡◌, Ok, IfOk};
ghost use Rattle.serde_json.specs.Written.{compact_text};
ghost use Rattle.bt_base.specs.Fails.{Gives};
ghost use Rattle.row_texts.specs.Texts.{row_in_text};

use crate::table_row::TableRow;
use bt_base::{Fail, NoMemory, Text};
use row_fields::{RowFault, not_a_row};
use serde_json::Value;
use std::alloc::Global;

/// The text of a row, from which it reads back. It fails only when out of memory.
pub fn write_row<T: TableRow>(alloc: Global, row: &T) -> Result<Text, NoMemory>
    ensures written { IfOk result (λ text. text ≡ compact_text (T.data_of row.now)) }
    ensures back { IfOk result (λ text. row_in_text T.in_data text ≡ Ok row.now) }
{
    let value = row.to_value(alloc)?;
    Text::of_string(value.to_string(alloc)?)
}

/// The row of this type that the text is. Returns `NotARow` exactly if the text is no such row, and `Memory` only when out of
/// memory. The text need not be compact.
pub fn read_row<T: TableRow>(alloc: Global, text: &str) -> Result<T, Fail<RowFault>>
    ensures { Gives result (row_in_text T.in_data text.now) }
{
    match Value::from_str(alloc, text) {
        Ok(value) => T::of_value(alloc, &value),
        Err(error) => if error.is_memory() {
            Err(Fail::Memory)
        } else {
            Err(not_a_row())
        },
    }
}
