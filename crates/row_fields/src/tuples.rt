//! Tuples, which are arrays of their parts.
ghost use Rattle.std.specs.Prelude.{◌≡◌, suc, max};
ghost use Rattle.row_fields.specs.Tuples.{pair_data, pair_in, pair_plain, triple_data, triple_in, triple_plain};

use crate::array::ArrayBuilder;
use crate::fault::RowFault;
use crate::field::Field;
use crate::places::{field_at, require_length};
use bt_base::{Fail, NoMemory};
use serde_json::Value;
use std::alloc::Global;

impl<A: Field, B: Field> Field for (A, B) {
    ghost data_of = { pair_data A.data_of B.data_of };

    ghost in_data = { pair_in A.in_data B.in_data };

    ghost nesting = { suc (max A.nesting B.nesting) };

    ghost plain = { pair_plain A.data_of B.data_of A.nesting B.nesting A.plain B.plain };

    fn to_value(&self, alloc: Global) -> Result<Value, NoMemory> {
        Ok(
            ArrayBuilder::new(alloc)
                .field(&self.0)?
                .field(&self.1)?
                .into_value(),
        )
    }

    fn of_value(alloc: Global, value: &Value) -> Result<(A, B), Fail<RowFault>> {
        require_length(2, value)?;
        let a = field_at(alloc, 0, value)?;
        let b = field_at(alloc, 1, value)?;
        Ok((a, b))
    }
}

impl<A: Field, B: Field, C: Field> Field for (A, B, C) {
    ghost data_of = { triple_data A.data_of B.data_of C.data_of };

    ghost in_data = { triple_in A.in_data B.in_data C.in_data };

    ghost nesting = { suc (max A.nesting (max B.nesting C.nesting)) };

    ghost plain = { triple_plain A.data_of B.data_of C.data_of A.nesting B.nesting C.nesting A.plain B.plain C.plain };

    fn to_value(&self, alloc: Global) -> Result<Value, NoMemory> {
        Ok(
            ArrayBuilder::new(alloc)
                .field(&self.0)?
                .field(&self.1)?
                .field(&self.2)?
                .into_value(),
        )
    }

    fn of_value(alloc: Global, value: &Value) -> Result<(A, B, C), Fail<RowFault>> {
        require_length(3, value)?;
        let a = field_at(alloc, 0, value)?;
        let b = field_at(alloc, 1, value)?;
        let c = field_at(alloc, 2, value)?;
        Ok((a, b, c))
    }
}
