//! Whole numbers from doubles.
ghost use Rattle.std.specs.Prelude.{◌≡◌};
ghost use Rattle.formula_values.specs.Functions.{floor_of, ceil_of, round_of};

use bt_base::Num;

/// The greatest whole number that is at most this number. It does not allocate.
pub fn floor_of(number: Num) -> i64
    ensures { result ≡ floor_of number }
{
    number.millionths().div_euclid(1_000_000)
}

/// The least whole number that is at least this number.
pub(crate) fn ceil_of(number: Num) -> i64
    ensures { result ≡ ceil_of number }
{
    let below = (-i128::from(number.millionths())).div_euclid(1_000_000);
    -(below as i64)
}

/// The whole number that is nearest to this number; of two, the one farther from zero.
pub(crate) fn round_of(number: Num) -> i64
    ensures { result ≡ round_of number }
{
    let millionths = number.millionths();
    let nearest = ((millionths.unsigned_abs() + 500_000) / 1_000_000) as i64;
    if millionths < 0 { -nearest } else { nearest }
}
