//! The trait of fields.
ghost use Rattle.std.specs.Prelude.{◌≡◌, ℕ, Result, IfOk, OnOk};
ghost use Rattle.serde_json.specs.Data.{Data};
ghost use Rattle.serde_json.specs.View.{view};
ghost use Rattle.bt_base.specs.Fails.{Gives};
ghost use Rattle.bt_base.specs.declared.fail.Fail.TheVariants.{Why};
ghost use Rattle.row_fields.specs.Fields.{IsPlain};
ghost use Rattle.row_fields.specs.declared.fault.RowFault.{RowFault};

use crate::fault::RowFault;
use bt_base::{Fail, NoMemory};
use serde_json::Value;
use std::alloc::Global;

/// A value that is a field of a row, or a part of a field. A type keeps its own range: a value that was written reads back
/// without a condition.
pub trait Field: Drop {
    /// The JSON of a value.
    ghost data_of: { Self → Data };

    /// The value that JSON is, or `NotARow`.
    ghost in_data: { Data → Result Self RowFault };

    /// How deep the JSON of a value nests at most.
    ghost nesting: { ℕ };

    /// The JSON of the value, from which it reads back. It fails only when out of memory.
    fn to_value(&self, alloc: Global) -> Result<Value, NoMemory>
        ensures written { IfOk result (λ value. view value ≡ data_of self.now) }
        ensures back { OnOk result (in_data (data_of self.now) ≡ Ok self.now) };

    /// The value that the JSON is. Returns `NotARow` exactly if it is no value of this type, and `Memory` only when out of memory.
    fn of_value(alloc: Global, value: &Value) -> Result<Self, Fail<RowFault>>
        ensures { Gives result (in_data (view value.now)) };

    /// The JSON is not null, has no floats and nests no deeper than stated.
    ghost plain: { (x : Self) → IsPlain nesting (data_of x) };
}

/// The one fault of a text that is not a row.
pub fn not_a_row() -> Fail<RowFault>
    ensures { result ≡ Why RowFault.NotARow }
{
    Fail::Why(RowFault::NotARow)
}
