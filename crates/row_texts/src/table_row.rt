//! The trait of rows.
ghost use Rattle.std.specs.Prelude.{◌≡◌, Result, IfOk, OnOk};
ghost use Rattle.serde_json.specs.Data.{Data};
ghost use Rattle.serde_json.specs.View.{view};
ghost use Rattle.bt_base.specs.Fails.{Gives};
ghost use Rattle.row_fields.specs.Fields.{IsPlain};
ghost use Rattle.row_fields.specs.declared.fault.RowFault.{RowFault};

use bt_base::{Fail, NoMemory};
use row_fields::RowFault;
use serde_json::Value;
use std::alloc::Global;

/// A row of one of the tables.
pub trait TableRow: Drop {
    /// The JSON of a row.
    ghost data_of: { Self → Data };

    /// The row that JSON is, or `NotARow`.
    ghost in_data: { Data → Result Self RowFault };

    /// The JSON of the row, from which it reads back. It fails only when out of memory.
    fn to_value(&self, alloc: Global) -> Result<Value, NoMemory>
        ensures written { IfOk result (λ value. view value ≡ data_of self.now) }
        ensures back { OnOk result (in_data (data_of self.now) ≡ Ok self.now) };

    /// The row that the JSON is. Returns `NotARow` exactly if it is no row of this type, and `Memory` only when out of memory.
    fn of_value(alloc: Global, value: &Value) -> Result<Self, Fail<RowFault>>
        ensures { Gives result (in_data (view value.now)) };

    /// The JSON is not null, has no floats and nests at most 4 deep.
    ghost plain: { (row : Self) → IsPlain 4 (data_of row) };
}
