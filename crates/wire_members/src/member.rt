//! Members of a part. If a member is of a wrong kind or out of range, or a required one is absent, the readers return
//! `InvalidPropertyValue` with its name. Only those that take an allocator allocate, and fail with `Memory` when out of memory.
ghost use Rattle.std.specs.Prelude.{◌≡◌, ◌≤◌, option_map, IfOk, IfSome};
ghost use Rattle.std.specs.Prelude.{◌≤ℤ◌};
ghost use Rattle.serde_json.specs.View.{view, items_view};
ghost use Rattle.bt_base.specs.Fails.{Gives, GivesAs};
ghost use Rattle.bt_base.specs.declared.fail.Fail.TheVariants.{Why};
ghost use Rattle.bt_rows.specs.declared.refusal.Refusal.TheVariants.{InvalidPropertyValue};
ghost use Rattle.wire_members.specs.Members.{member_of, or_invalid, count_in, signed_in, command_in};
ghost use Rattle.wire_members.specs.Members.{count_member, count_if, required_count, signed_member, signed_if, required_signed, flag_member, is_true, text_member, id_member, command_member, object_member, required_object, list_member, required_list, object_item, id_item, unbuilt_member};

use bt_base::{CommandLine, Fail, Id, Text};
use bt_rows::member::Member;
use bt_rows::refusal::Refusal;
use serde_json::Value;
use std::alloc::Global;

/// The refusal `InvalidPropertyValue` with the member's name.
pub fn invalid_property(name: Member) -> Fail<Refusal>
    ensures { result ≡ Why (InvalidPropertyValue name) }
{
    Fail::Why(Refusal::InvalidPropertyValue(name))
}

/// The member of that name; None if it is absent or `null`, or the part is absent.
pub fn member<'v>(part: Option<&'v Value>, name: Member) -> Option<&'v Value>
    ensures { option_map (λ v. view v.now) result ≡ member_of (option_map (λ v. view v.now) part.entry) name }
{
    let part = part?;
    let value = part.get(name.text())?;
    if value.is_null() { None } else { Some(value) }
}

/// Refuses a member that the service does not support yet, unless it is absent or `null`.
pub fn unbuilt_member(part: Option<&Value>, name: Member) -> Result<(), Fail<Refusal>>
    ensures { Gives result (unbuilt_member (option_map (λ v. view v.now) part.entry) name) }
{
    match member(part, name) {
        None => Ok(()),
        Some(_) => Err(invalid_property(name)),
    }
}

/// The value as a whole number from `low` to `high`, if it is one.
fn count_of(value: &Value, low: u64, high: u64) -> Option<u64>
    ensures { result ≡ count_in low high (view value.now) }
{
    match value.as_u64() {
        Some(n) => if low <= n && n <= high { Some(n) } else { None },
        None => None,
    }
}

/// A whole number from `low` to `high`; the default if it is absent.
pub fn count_member(
    part: Option<&Value>,
    name: Member,
    low: u64,
    high: u64,
    default: u64,
) -> Result<u64, Fail<Refusal>>
    ensures value { Gives result (count_member (option_map (λ v. view v.now) part.entry) name low high default) }
    ensures bound { low ≤ default → default ≤ high → IfOk result (λ n. (low ≤ n) × (n ≤ high)) }
{
    match member(part, name) {
        None => Ok(default),
        Some(value) => count_of(value, low, high).ok_or(invalid_property(name)),
    }
}

/// A whole number of 32 bits from `low` to `high`; None if it is absent.
pub fn count_if(
    part: Option<&Value>,
    name: Member,
    low: u32,
    high: u32,
) -> Result<Option<u32>, Fail<Refusal>>
    ensures value { Gives result (count_if (option_map (λ v. view v.now) part.entry) name low high) }
    ensures bound { IfOk result (λ n. IfSome n (λ n. (low ≤ n) × (n ≤ high))) }
{
    match member(part, name) {
        None => Ok(None),
        Some(value) => match count_of(value, u64::from(low), u64::from(high)) {
            Some(n) => Ok(Some(n as u32)),
            None => Err(invalid_property(name)),
        },
    }
}

/// A whole number from `low` to `high`, which is required.
pub fn required_count(
    part: Option<&Value>,
    name: Member,
    low: u64,
    high: u64,
) -> Result<u64, Fail<Refusal>>
    ensures value { Gives result (required_count (option_map (λ v. view v.now) part.entry) name low high) }
    ensures bound { IfOk result (λ n. (low ≤ n) × (n ≤ high)) }
{
    match member(part, name) {
        None => Err(invalid_property(name)),
        Some(value) => count_of(value, low, high).ok_or(invalid_property(name)),
    }
}

/// The value as a whole number from `low` to `high`, which may be below 0, if it is one.
fn signed_of(value: &Value, low: i64, high: i64) -> Option<i64>
    ensures { result ≡ signed_in low high (view value.now) }
{
    match value.as_i64() {
        Some(n) => if low <= n && n <= high { Some(n) } else { None },
        None => None,
    }
}

/// A whole number from `low` to `high`, which may be below 0; the default if it is absent.
pub fn signed_member(
    part: Option<&Value>,
    name: Member,
    low: i64,
    high: i64,
    default: i64,
) -> Result<i64, Fail<Refusal>>
    ensures value { Gives result (signed_member (option_map (λ v. view v.now) part.entry) name low high default) }
    ensures bound { low ≤ℤ default → default ≤ℤ high → IfOk result (λ n. (low ≤ℤ n) × (n ≤ℤ high)) }
{
    match member(part, name) {
        None => Ok(default),
        Some(value) => signed_of(value, low, high).ok_or(invalid_property(name)),
    }
}

/// A whole number of 32 bits from `low` to `high`, which may be below 0; None if it is absent.
pub fn signed_if(
    part: Option<&Value>,
    name: Member,
    low: i32,
    high: i32,
) -> Result<Option<i32>, Fail<Refusal>>
    ensures value { Gives result (signed_if (option_map (λ v. view v.now) part.entry) name low high) }
    ensures bound { IfOk result (λ n. IfSome n (λ n. (low ≤ℤ n) × (n ≤ℤ high))) }
{
    match member(part, name) {
        None => Ok(None),
        Some(value) => match signed_of(value, i64::from(low), i64::from(high)) {
            Some(n) => Ok(Some(n as i32)),
            None => Err(invalid_property(name)),
        },
    }
}

/// A whole number from `low` to `high`, which may be below 0 and is required.
pub fn required_signed(
    part: Option<&Value>,
    name: Member,
    low: i64,
    high: i64,
) -> Result<i64, Fail<Refusal>>
    ensures value { Gives result (required_signed (option_map (λ v. view v.now) part.entry) name low high) }
    ensures bound { IfOk result (λ n. (low ≤ℤ n) × (n ≤ℤ high)) }
{
    match member(part, name) {
        None => Err(invalid_property(name)),
        Some(value) => signed_of(value, low, high).ok_or(invalid_property(name)),
    }
}

/// A truth value; the default if it is absent.
pub fn flag_member(part: Option<&Value>, name: Member, default: bool) -> Result<bool, Fail<Refusal>>
    ensures { Gives result (flag_member (option_map (λ v. view v.now) part.entry) name default) }
{
    match member(part, name) {
        None => Ok(default),
        Some(value) => value.as_bool().ok_or(invalid_property(name)),
    }
}

/// Whether the member is `true`: an absent one is not, nor is another value.
pub fn is_true(part: Option<&Value>, name: Member) -> bool
    ensures { result ≡ is_true (option_map (λ v. view v.now) part.entry) name }
{
    match member(part, name) {
        None => false,
        Some(value) => value.as_bool().unwrap_or(false),
    }
}

/// A text; None if it is absent.
pub fn text_member(
    alloc: Global,
    part: Option<&Value>,
    name: Member,
) -> Result<Option<Text>, Fail<Refusal>>
    ensures { Gives result (text_member (option_map (λ v. view v.now) part.entry) name) }
{
    match member(part, name) {
        None => Ok(None),
        Some(value) => match value.as_str() {
            Some(text) => Ok(Some(Text::of_string(String::from_str(alloc, text)?)?)),
            None => Err(invalid_property(name)),
        },
    }
}

/// An item of the list with this name, which has to be an id; else it is refused under the list's name.
pub fn id_item(alloc: Global, value: &Value, name: Member) -> Result<Id, Fail<Refusal>>
    ensures { Gives result (id_item (view value.now) name) }
{
    let Some(text) = value.as_str() else {
        return Err(invalid_property(name));
    };
    match Id::read(alloc, text) {
        Ok(id) => Ok(id),
        Err(Fail::Why(_)) => Err(invalid_property(name)),
        Err(Fail::Memory) => Err(Fail::Memory),
    }
}

/// An id, which is required.
pub fn id_member(alloc: Global, part: Option<&Value>, name: Member) -> Result<Id, Fail<Refusal>>
    ensures { Gives result (id_member (option_map (λ v. view v.now) part.entry) name) }
{
    match member(part, name) {
        None => Err(invalid_property(name)),
        Some(value) => id_item(alloc, value, name),
    }
}

/// The command line that the value is. Another value is refused under the name.
fn command_of_value(
    alloc: Global,
    value: &Value,
    name: Member,
) -> Result<CommandLine, Fail<Refusal>>
    ensures { Gives result (or_invalid name (command_in (view value.now))) }
{
    let Some(text) = value.as_str() else {
        return Err(invalid_property(name));
    };
    match CommandLine::read(alloc, text)? {
        Some(line) => Ok(line),
        None => Err(invalid_property(name)),
    }
}

/// A command line, which is required.
pub fn command_member(
    alloc: Global,
    part: Option<&Value>,
    name: Member,
) -> Result<CommandLine, Fail<Refusal>>
    ensures { Gives result (command_member (option_map (λ v. view v.now) part.entry) name) }
{
    match member(part, name) {
        None => Err(invalid_property(name)),
        Some(value) => command_of_value(alloc, value, name),
    }
}

/// An object; None if it is absent.
pub fn object_member<'v>(
    part: Option<&'v Value>,
    name: Member,
) -> Result<Option<&'v Value>, Fail<Refusal>>
    ensures { GivesAs (option_map (λ v. view v.now)) result (object_member (option_map (λ v. view v.now) part.entry) name) }
{
    match member(part, name) {
        None => Ok(None),
        Some(value) => if value.is_object() {
            Ok(Some(value))
        } else {
            Err(invalid_property(name))
        },
    }
}

/// An object, which is required.
pub fn required_object<'v>(
    part: Option<&'v Value>,
    name: Member,
) -> Result<&'v Value, Fail<Refusal>>
    ensures { GivesAs (λ v. view v.now) result (required_object (option_map (λ v. view v.now) part.entry) name) }
{
    match member(part, name) {
        None => Err(invalid_property(name)),
        Some(value) => if value.is_object() {
            Ok(value)
        } else {
            Err(invalid_property(name))
        },
    }
}

/// The items of a list; no items if it is absent.
pub fn list_member<'v>(part: Option<&'v Value>, name: Member) -> Result<&'v [Value], Fail<Refusal>>
    ensures { GivesAs (λ vs. items_view vs.now) result (list_member (option_map (λ v. view v.now) part.entry) name) }
{
    match member(part, name) {
        None => Ok(&[]),
        Some(value) => match value.as_array() {
            Some(list) => Ok(list.as_slice()),
            None => Err(invalid_property(name)),
        },
    }
}

/// The items of a list, which is required.
pub fn required_list<'v>(
    part: Option<&'v Value>,
    name: Member,
) -> Result<&'v [Value], Fail<Refusal>>
    ensures { GivesAs (λ vs. items_view vs.now) result (required_list (option_map (λ v. view v.now) part.entry) name) }
{
    match member(part, name) {
        None => Err(invalid_property(name)),
        Some(value) => match value.as_array() {
            Some(list) => Ok(list.as_slice()),
            None => Err(invalid_property(name)),
        },
    }
}

/// An item of the list with this name, which has to be an object; else it is refused under the list's name.
pub fn object_item<'v>(value: &'v Value, name: Member) -> Result<&'v Value, Fail<Refusal>>
    ensures { GivesAs (λ v. view v.now) result (object_item (view value.now) name) }
{
    if value.is_object() {
        Ok(value)
    } else {
        Err(invalid_property(name))
    }
}
