//! Numbers and truth values. A number is one without a point and an exponent.
ghost use Rattle.std.specs.Prelude.{◌≡◌, Ok};
ghost use Rattle.serde_json.specs.Data.{boolean};
ghost use Rattle.serde_json.specs.View.{view};
ghost use Rattle.bt_base.specs.Fails.{Gives};
ghost use Rattle.row_fields.specs.Scalars.{
  count_data,
  count_in,
  u8_in,
  u32_in,
  whole_data,
  whole_in,
  i32_in,
  flag_in,
  num_in,
  count_plain,
  whole_plain,
  flag_plain,
};

use crate::fault::RowFault;
use crate::field::{Field, not_a_row};
use bt_base::{Fail, NoMemory, Num};
use serde_json::Value;
use std::alloc::Global;

fn count_of(value: &Value) -> Result<u64, Fail<RowFault>>
    ensures { Gives result (count_in (view value.now)) }
{
    value.as_u64().ok_or(not_a_row())
}

fn whole_of(value: &Value) -> Result<i64, Fail<RowFault>>
    ensures { Gives result (whole_in (view value.now)) }
{
    value.as_i64().ok_or(not_a_row())
}

fn whole_value(whole: i64) -> Value
    ensures written { view result ≡ whole_data whole }
    ensures back { whole_in (whole_data whole) ≡ Ok whole }
{
    Value::from(whole)
}

impl Field for u64 {
    ghost data_of = { count_data };

    ghost in_data = { count_in };

    ghost nesting = { 0 };

    ghost plain = { count_plain };

    fn to_value(&self, _: Global) -> Result<Value, NoMemory> {
        Ok(Value::from(*self))
    }

    fn of_value(_: Global, value: &Value) -> Result<u64, Fail<RowFault>> {
        count_of(value)
    }
}

impl Field for u32 {
    ghost data_of = { count_data };

    ghost in_data = { u32_in };

    ghost nesting = { 0 };

    ghost plain = { count_plain };

    fn to_value(&self, _: Global) -> Result<Value, NoMemory> {
        Ok(Value::from(*self))
    }

    fn of_value(_: Global, value: &Value) -> Result<u32, Fail<RowFault>> {
        let count = count_of(value)?;
        if count <= 4_294_967_295 {
            Ok(count as u32)
        } else {
            Err(not_a_row())
        }
    }
}

impl Field for u8 {
    ghost data_of = { count_data };

    ghost in_data = { u8_in };

    ghost nesting = { 0 };

    ghost plain = { count_plain };

    fn to_value(&self, _: Global) -> Result<Value, NoMemory> {
        Ok(Value::from(*self))
    }

    fn of_value(_: Global, value: &Value) -> Result<u8, Fail<RowFault>> {
        let count = count_of(value)?;
        if count <= 255 {
            Ok(count as u8)
        } else {
            Err(not_a_row())
        }
    }
}

impl Field for i32 {
    ghost data_of = { whole_data };

    ghost in_data = { i32_in };

    ghost nesting = { 0 };

    ghost plain = { whole_plain };

    fn to_value(&self, _: Global) -> Result<Value, NoMemory> {
        Ok(Value::from(*self))
    }

    fn of_value(_: Global, value: &Value) -> Result<i32, Fail<RowFault>> {
        let whole = whole_of(value)?;
        if -2_147_483_648 <= whole && whole <= 2_147_483_647 {
            Ok(whole as i32)
        } else {
            Err(not_a_row())
        }
    }
}

impl Field for bool {
    ghost data_of = { boolean };

    ghost in_data = { flag_in };

    ghost nesting = { 0 };

    ghost plain = { flag_plain };

    fn to_value(&self, _: Global) -> Result<Value, NoMemory> {
        Ok(Value::Bool(*self))
    }

    fn of_value(_: Global, value: &Value) -> Result<bool, Fail<RowFault>> {
        value.as_bool().ok_or(not_a_row())
    }
}

/// Its millionths.
impl Field for Num {
    ghost data_of = { whole_data };

    ghost in_data = { num_in };

    ghost nesting = { 0 };

    ghost plain = { whole_plain };

    fn to_value(&self, _: Global) -> Result<Value, NoMemory> {
        self.known();
        Ok(whole_value(self.millionths()))
    }

    fn of_value(_: Global, value: &Value) -> Result<Num, Fail<RowFault>> {
        let whole = whole_of(value)?;
        Num::of_millionths(whole).ok_or(not_a_row())
    }
}
