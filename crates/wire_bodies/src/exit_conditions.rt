//! Exit conditions in the bodies of tasks.
ghost use Rattle.std.specs.Prelude.{true, option_map};
ghost use Rattle.serde_json.specs.View.{view};
ghost use Rattle.bt_base.specs.Fails.{Gives};
ghost use Rattle.wire_bodies.specs.ExitConditions as exits;

use crate::list_item::{ListItem, read_shared_items};
use bt_base::{Fail, SharedList};
use bt_rows::member::Member;
use bt_rows::refusal::Refusal;
use bt_rows::task::{Given, JobAction};
use serde_json::Value;
use std::alloc::Global;
use wire_members::{
    DependencyAction, list_member, object_item, object_member, required_object, required_signed,
    word_if,
};

/// The exit conditions of a task.
#[derive(Drop)]
pub struct Conditions {
    /// Options for single codes.
    pub codes: SharedList<(i32, Given)>,
    /// Options for ranges of codes, with the first and the last code of each.
    pub ranges: SharedList<(i32, i32, Given)>,
    /// Options for a command line that could not be started.
    pub launch: Option<Given>,
    /// Options for every other ending that is not code 0.
    pub other: Option<Given>,
}

/// An exit code, which is required.
fn code_member(part: &Value, name: Member) -> Result<i32, Fail<Refusal>>
    ensures { Gives result (exits.code_member (view part.now) name) }
{
    let low = i64::from(i32::MIN);
    let high = i64::from(i32::MAX);
    let code = required_signed(Some(part), name, low, high)?;
    Ok(code as i32)
}

/// The exit options that the members of an object are (Azure: exitOptions). It does not allocate.
#[tactic(auto, unfolding(crate::specs::ExitConditions::options_in))]
fn options(part: &Value) -> Result<Given, Fail<Refusal>>
    ensures { Gives result (exits.options_in (view part.now)) }
{
    let job = word_if::<JobAction>(Some(part), Member::JobAction)?;
    let dependents = word_if::<DependencyAction>(Some(part), Member::DependencyAction)?;
    Ok(Given {
        job,
        satisfies: dependents.map(|dependents| dependents.is_satisfying()),
    })
}

/// The exit options that an object is, None if there is no object.
#[tactic(auto, unfolding(crate::specs::ExitConditions::options_of))]
fn options_of(part: Option<&Value>) -> Result<Option<Given>, Fail<Refusal>>
    ensures { Gives result (exits.options_of (option_map (λ v. view v.now) part.entry)) }
{
    match part {
        None => Ok(None),
        Some(part) => Ok(Some(options(part)?)),
    }
}

/// The exit options of an item, which are required.
#[tactic(auto, unfolding(crate::specs::ExitConditions::required_options))]
fn required_options(item: &Value) -> Result<Given, Fail<Refusal>>
    ensures { Gives result (exits.required_options (view item.now)) }
{
    let part = required_object(Some(item), Member::ExitOptions)?;
    options(part)
}

impl ListItem for (i32, Given) {
    ghost item_in = { exits.code_item };

    ghost is_in_range = { λ item. true };

    #[tactic(auto, unfolding(crate::specs::ExitConditions::code_item))]
    fn read(alloc: Global, list: Member, value: &Value) -> Result<(i32, Given), Fail<Refusal>> {
        let members = object_item(value, list)?;
        let code = code_member(members, Member::Code)?;
        let options = required_options(members)?;
        Ok((code, options))
    }
}

impl ListItem for (i32, i32, Given) {
    ghost item_in = { exits.range_item };

    ghost is_in_range = { λ item. true };

    #[tactic(auto, unfolding(crate::specs::ExitConditions::range_item))]
    fn read(
        alloc: Global,
        list: Member,
        value: &Value,
    ) -> Result<(i32, i32, Given), Fail<Refusal>> {
        let members = object_item(value, list)?;
        let first = code_member(members, Member::Start)?;
        let last = code_member(members, Member::End)?;
        let options = required_options(members)?;
        Ok((first, last, options))
    }
}

/// The exit conditions that an object is (Azure: exitConditions); none if there is no object. Each member may be absent.
///
/// - `exitCodes`, a list of objects with a `code` of 32 bits and `exitOptions`, both required;
/// - `exitCodeRanges`, a list of objects with `start` and `end`, codes of 32 bits, and `exitOptions`, all required. A range whose
///   `start` is above its `end` is taken, and holds no code;
/// - `preProcessingError` and `default`, which are exit options.
///
/// Exit options are an object with `jobAction`, which is `none`, `disable` or `terminate`, and `dependencyAction`, which is
/// `satisfy` or `block`, in upper or lower case; each may be absent.
///
/// A member that is of a wrong kind or out of range, and an absent one that is required, are `InvalidPropertyValue` with its name;
/// an item that is not an object is refused under its list's name. It fails with `Memory` when out of memory.
#[tactic(auto, unfolding(crate::specs::ExitConditions::conditions_in))]
pub fn conditions_in(alloc: Global, part: Option<&Value>) -> Result<Conditions, Fail<Refusal>>
    ensures { Gives result (exits.conditions_in (option_map (λ v. view v.now) part.entry)) }
{
    let values = list_member(part, Member::ExitCodes)?;
    let codes = read_shared_items(alloc, Member::ExitCodes, values)?;
    let values = list_member(part, Member::ExitCodeRanges)?;
    let ranges = read_shared_items(alloc, Member::ExitCodeRanges, values)?;
    let launch = options_of(object_member(part, Member::PreProcessingError)?)?;
    let other = options_of(object_member(part, Member::Default)?)?;
    Ok(Conditions {
        codes,
        ranges,
        launch,
        other,
    })
}
