//! The numbers of a formula's text.
ghost use Rattle.std.specs.Prelude.{◌≡◌, ◌∷◌, ◌≤◌, min};
ghost use Rattle.bt_base.specs.Ids.{decimal_from};
ghost use Rattle.formula_trees.specs.Pieces.{literal_of};

use bt_base::Num;

/// One more than the greatest number, in millionths. While a text is read it represents each number past the greatest, so that the
/// sum of digits stays within 64 bits.
const PAST: u64 = 1_000_000_000_000_000_001;

const ZEROS: [u8; 6] = *b"000000";

/// The number with this digit and these before its point, and these after it, of which those past the sixth are cut.
/// None if it is over 10^12.
pub fn literal(digit: u8, whole: &[u8], decimals: &[u8]) -> Option<Num>
    ensures { result ≡ literal_of (digit ∷ whole.now) decimals.now }
{
    let kept = decimals.len().min(6);
    let first = shown(0, &[digit]);
    let ones = shown(first, whole);
    let cut = shown(ones, &decimals[..kept]);
    let millionths = shown(cut, &ZEROS[..6 - kept]);
    Num::of_millionths(millionths as i64)
}

/// The number that these digits make after those that make `before`, up to `PAST`.
fn shown(before: u64, digits: &[u8]) -> u64
    requires { before ≤ PAST }
    ensures { result ≡ min (decimal_from before digits.now) PAST }
{
    let mut number = before;
    for digit in digits {
        number = (10 * number + u64::from(digit.saturating_sub(b'0'))).min(PAST);
    }
    number
}
