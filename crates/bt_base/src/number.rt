//! Numbers with six decimals.
ghost use Rattle.std.specs.Prelude.{◌≡◌, ◌==◌, ◌≤◌, ◌<◌, ◌++◌, ◌≢◌, ◌*ℤ◌, pos, min, IfOk, IfSome, option_map, string_bytes, true};
ghost use Rattle.std.specs.Char.{is_ascii_digit};
ghost use Rattle.std.specs.List.{list_all, position};
ghost use Rattle.bt_base.specs.Ids.{decimal_from};
ghost use Rattle.bt_base.specs.Numbers.{is_in_bounds, in_bounds, bounded, whole_number, sum_of, difference_of, product_of, quotient_of, is_minus, cut, if_digits, is_digits, millionths_of, unsigned, signed, read_number, fraction_text, decimals, number_text};

use crate::memory::NoMemory;
use crate::text::Text;
use std::alloc::Global;
use std::marker::Model;

/// The greatest magnitude of a number, in millionths: that of 10^12 (this project's profile).
pub const MAX_MILLIONTHS: i64 = 1_000_000_000_000_000_000;

/// The millionths of one.
pub const MILLIONTHS_PER_ONE: i64 = 1_000_000;

/// A number with six decimals, of magnitude at most 10^12 (this project's profile). Contracts see it as its millionths.
#[derive(Clone, Copy, Debug, PartialEq, Eq, PartialOrd, Ord)]
pub struct Num {
    millionths: i64,
}

impl Model for Num {
    ghost use Rattle.std.specs.Prelude.{◌≡◌, ℤ, true};
    ghost use Rattle.bt_base.specs.Numbers.{is_in_bounds};

    ghost Value = { ℤ };

    ghost view = { λ n. n.millionths };

    ghost invariant = { λ n. is_in_bounds n.millionths ≡ true };

    ghost inverse = { λ z. record { millionths = z } };
}

/// Why there is no number.
#[derive(Clone, Copy, Debug, PartialEq, Eq)]
pub enum NumFault {
    /// The text is not a number: a `-` that may be left out, digits, and a point and digits that may be left out.
    NotANumber,
    /// The magnitude is greater than 10^12.
    TooLarge,
    /// The divisor is zero.
    DivideByZero,
}

impl Num {
    /// The number with these millionths; None if its magnitude is greater than 10^12. It does not allocate.
    pub fn of_millionths(millionths: i64) -> Option<Num>
        ensures { result ≡ in_bounds millionths }
    {
        if -MAX_MILLIONTHS <= millionths && millionths <= MAX_MILLIONTHS {
            Some(Num { millionths })
        } else {
            None
        }
    }

    /// The number's millionths.
    pub fn millionths(self) -> i64
        ensures { result ≡ self }
    {
        self.millionths
    }

    /// Tells callers that the number is within its bounds. It does nothing at run time.
    pub fn known(self)
        ensures { is_in_bounds self ≡ true }
    {
        let _ = self.millionths;
    }

    /// The number that the text is: a `-` that may be left out, digits, and a point and digits that may be left out.
    /// Decimals after the sixth are cut off. Returns `NotANumber` for any other text, and `TooLarge` if the magnitude is
    /// greater than 10^12. It does not allocate.
    pub fn read(text: &str) -> Result<Num, NumFault>
        ensures { result ≡ read_number text.now }
    {
        let bytes = text.as_bytes();
        if is_minus(bytes) {
            with_sign(true, unsigned(&bytes[1..]))
        } else {
            with_sign(false, unsigned(bytes))
        }
    }

    /// The whole number. Returns `TooLarge` if its magnitude is greater than 10^12. It does not allocate.
    pub fn of_whole(whole: i64) -> Result<Num, NumFault>
        ensures { result ≡ whole_number whole }
    {
        bounded(i128::from(whole) * i128::from(MILLIONTHS_PER_ONE))
    }

    /// The sum. Returns `TooLarge` if its magnitude is greater than 10^12. It does not allocate.
    pub fn add(self, other: Num) -> Result<Num, NumFault>
        ensures { result ≡ sum_of self other }
    {
        bounded(i128::from(self.millionths) + i128::from(other.millionths))
    }

    /// The difference. Returns `TooLarge` if its magnitude is greater than 10^12. It does not allocate.
    pub fn sub(self, other: Num) -> Result<Num, NumFault>
        ensures { result ≡ difference_of self other }
    {
        bounded(i128::from(self.millionths) - i128::from(other.millionths))
    }

    /// The product, cut toward zero after six decimals. Returns `TooLarge` if its magnitude is greater than 10^12. It does
    /// not allocate.
    pub fn mul(self, other: Num) -> Result<Num, NumFault>
        ensures { result ≡ product_of self other }
    {
        bounded(fraction(self.millionths, other.millionths, MILLIONTHS_PER_ONE))
    }

    /// The quotient, cut toward zero after six decimals. Returns `DivideByZero` if `other` is zero, and `TooLarge` if the
    /// quotient's magnitude is greater than 10^12. It does not allocate.
    pub fn div(self, other: Num) -> Result<Num, NumFault>
        ensures { result ≡ quotient_of self other }
    {
        if other.millionths == 0 {
            return Err(NumFault::DivideByZero);
        }
        bounded(fraction(self.millionths, MILLIONTHS_PER_ONE, other.millionths))
    }

    /// The number as text: without zeros at the end of its decimals, and without a point if it is whole.
    #[tactic(auto, unfolding(crate::specs::Numbers::number_text))]
    pub fn text(self, alloc: Global) -> Result<Text, NoMemory>
        ensures { IfOk result (λ text. text ≡ number_text self) }
    {
        let magnitude = self.millionths.unsigned_abs();
        let sign = if self.millionths < 0 { "-" } else { "" };
        let whole = magnitude / 1_000_000;
        let mut text = format!(in alloc; "{sign}{whole}")?;
        push_fraction(&mut text, magnitude % 1_000_000)?;
        Text::of_string(text)
    }
}

/// The fraction `a * b / under`, cut toward zero.
fn fraction(a: i64, b: i64, under: i64) -> i128
    requires { under ≢ pos 0 }
    ensures { result ≡ cut (a *ℤ b) under }
{
    i128::from(a) * i128::from(b) / i128::from(under)
}

#[tactic(auto, unfolding(crate::specs::Numbers::bounded))]
fn bounded(millionths: i128) -> Result<Num, NumFault>
    ensures { result ≡ bounded millionths }
{
    if -i128::from(MAX_MILLIONTHS) <= millionths && millionths <= i128::from(MAX_MILLIONTHS) {
        Ok(Num {
            millionths: millionths as i64,
        })
    } else {
        Err(NumFault::TooLarge)
    }
}

/// Appends a point and the decimals of these millionths, or nothing if there are none.
#[tactic(auto, unfolding(crate::specs::Numbers::fraction_text))]
fn push_fraction(text: &mut String, millionths: u64) -> Result<(), NoMemory>
    requires { millionths < 1000000 }
    ensures { IfOk result (λ _. string_bytes text.new ≡ string_bytes text.old ++ fraction_text millionths) }
{
    if millionths == 0 {
        return Ok(());
    }
    text.push('.')?;
    push_decimals(text, millionths)
}

fn push_decimals(text: &mut String, millionths: u64) -> Result<(), NoMemory>
    requires { millionths < 1000000 }
    ensures { IfOk result (λ _. string_bytes text.new ≡ string_bytes text.old ++ decimals 6 millionths) }
{
    let mut left = millionths;
    for _place in 0..6_u32 {
        if left == 0 {
            return Ok(());
        }
        let digit = b'0' + (10 * left / 1_000_000) as u8;
        text.push(digit as char)?;
        left = 10 * left % 1_000_000;
    }
    Ok(())
}

/// One more than the greatest magnitude, in millionths: while a text is read, it stands for each greater magnitude.
const PAST: u64 = 1_000_000_000_000_000_001;

const ZEROS: [u8; 6] = *b"000000";

/// The number of these millionths, above or below zero.
fn with_sign(below: bool, millionths: Option<u64>) -> Result<Num, NumFault>
    ensures { result ≡ signed below millionths }
{
    match millionths {
        None => Err(NumFault::NotANumber),
        Some(n) => {
            let n = i128::from(n);
            bounded(if below { -n } else { n })
        }
    }
}

fn is_minus(text: &[u8]) -> bool
    ensures { result ≡ is_minus text.now }
{
    match text.first() {
        Some(b) => *b == b'-',
        None => false,
    }
}

#[tactic(auto, unfolding(crate::specs::Numbers::is_digits))]
fn is_digits(text: &[u8]) -> bool
    ensures { result ≡ is_digits text.now }
{
    !text.is_empty() && are_digits(text)
}

fn are_digits(text: &[u8]) -> bool
    ensures { result ≡ list_all is_ascii_digit text.now }
{
    text.iter().all(|b| b.is_ascii_digit())
}

/// The millionths of a text without a sign, up to `PAST`.
fn unsigned(text: &[u8]) -> Option<u64>
    ensures { result ≡ option_map (λ n. min n PAST) (unsigned text.now) }
{
    match point_of(text) {
        None => if_digits(is_digits(text), text, &[]),
        Some(point) => {
            let whole = &text[..point];
            let decimals = &text[point + 1..];
            if_digits(is_digits(whole) && is_digits(decimals), whole, decimals)
        }
    }
}

/// The place of the first point.
fn point_of(text: &[u8]) -> Option<usize>
    ensures { result ≡ position (λ b. b == 46) text.now }
{
    text.iter().position(|b| *b == b'.')
}

fn if_digits(are: bool, whole: &[u8], decimals: &[u8]) -> Option<u64>
    ensures { result ≡ option_map (λ n. min n PAST) (if_digits are whole.now decimals.now) }
{
    if are {
        Some(millionths(whole, decimals))
    } else {
        None
    }
}

/// The millionths of the digits before and after a point, up to `PAST`.
fn millionths(whole: &[u8], decimals: &[u8]) -> u64
    ensures { result ≡ min (millionths_of whole.now decimals.now) PAST }
{
    let kept = decimals.len().min(6);
    let ones = shown(0, whole);
    let cut = shown(ones, &decimals[..kept]);
    shown(cut, &ZEROS[..6 - kept])
}

/// The number that the digits stand for after those of the number `before`, up to `PAST`.
fn shown(before: u64, digits: &[u8]) -> u64
    requires { before ≤ PAST }
    ensures { result ≡ min (decimal_from before digits.now) PAST }
{
    let mut number = before;
    for digit in digits {
        number = (10 * number + u64::from(digit.saturating_sub(b'0'))).min(PAST);
    }
    number
}
