//! The norm of a vector.
ghost use Rattle.std.specs.Prelude.{◌≡◌, ◌≤◌, ◌*◌, ◌^◌, min, unsigned_abs};
ghost use Rattle.formula_values.specs.Functions.{norm_of, squares};

use crate::arithmetic::{bounded, double_of};
use crate::fault::ValueFault;
use crate::value::Value;
use bt_base::Num;

/// The root of the sum of the items' squares, cut after six decimals; `TooLarge` past the greatest magnitude.
pub(crate) fn norm_of(items: &[Num]) -> Result<Value, ValueFault>
    ensures { result ≡ norm_of items.now }
{
    let root = squares(items).isqrt();
    double_of(bounded(root as i128))
}

/// The square of one more than the millionths of the greatest magnitude. It represents each sum past it, so that sums stay within
/// 128 bits.
const PAST: u128 = 1_000_000_000_000_000_002_000_000_000_000_000_001;

/// The sum of the squares of the items' millionths, up to `PAST`.
fn squares(items: &[Num]) -> u128
    ensures { result ≡ min (squares items.now) PAST }
{
    let mut sum = 0_u128;
    for item in items {
        sum = (sum + square(*item)).min(PAST);
    }
    sum
}

fn square(number: Num) -> u128
    ensures value { result ≡ unsigned_abs number * unsigned_abs number }
    ensures bound { result ≤ 2 ^ 126 }
{
    let magnitude = u128::from(number.millionths().unsigned_abs());
    magnitude * magnitude
}
