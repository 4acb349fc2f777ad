//! Values of expressions.
ghost use Rattle.std.specs.Prelude.{◌≡◌};
ghost use Rattle.formula_values.specs.Values.{whole_value};

use crate::times::{TimeInterval, Timestamp};
use bt_base::{Duplicate, List, NoMemory, Num, Text};

/// The value of an expression.
#[derive(Debug, Drop)]
pub enum Value {
    Double(Num),
    /// A list of doubles.
    DoubleVec(List<Num>),
    Text(Text),
    Timestamp(Timestamp),
    TimeInterval(TimeInterval),
}

impl Duplicate for Value {
    fn copy(&self) -> Result<Value, NoMemory> {
        Ok(match self {
            Value::Double(number) => Value::Double(*number),
            Value::DoubleVec(items) => Value::DoubleVec(items.copied()?),
            Value::Text(text) => Value::Text(text.copy()?),
            Value::Timestamp(time) => Value::Timestamp(*time),
            Value::TimeInterval(time) => Value::TimeInterval(*time),
        })
    }
}

/// The double that is this whole number. It does not allocate.
pub fn whole(number: u32) -> Value
    ensures { result ≡ whole_value number }
{
    let millionths = u64::from(number) * 1_000_000;
    match Num::of_millionths(millionths as i64) {
        Some(number) => Value::Double(number),
        None => unreachable!(),
    }
}
