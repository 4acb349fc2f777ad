//! The arguments of lines.
ghost use Rattle.std.specs.Prelude.{option_map};
ghost use Rattle.bt_base.specs.Fails.{Gives, GivesAs};
ghost use Rattle.wire_lines.specs.Arguments.{id_argument, lone_id, id_and_body, job_and_task};

use crate::parts::{split_just_two, split_one, split_word};
use bt_base::{Fail, Id, text_of};
use bt_rows::member::Member;
use bt_rows::refusal::Refusal;
use std::alloc::Global;
use wire_members::invalid_property;
use wire_operations::BodyRule;

/// The failure of a line that is not a valid request.
pub const UNREADABLE: Fail<Refusal> = Fail::Why(Refusal::UnreadableBody);

/// An id among the arguments of a line.
#[tactic(auto, unfolding(crate::specs::Arguments::id_argument))]
pub fn id_argument(alloc: Global, bytes: &[u8]) -> Result<Id, Fail<Refusal>>
    ensures { Gives result (id_argument bytes.now) }
{
    let text = text_of(bytes).ok_or(UNREADABLE)?;
    match Id::read(alloc, text) {
        Ok(id) => Ok(id),
        Err(Fail::Why(_)) => Err(invalid_property(Member::Id)),
        Err(Fail::Memory) => Err(Fail::Memory),
    }
}

/// An id that is the only argument of a line.
#[tactic(auto, unfolding(crate::specs::Arguments::lone_id))]
pub fn lone_id(alloc: Global, text: &[u8]) -> Result<Id, Fail<Refusal>>
    ensures { Gives result (lone_id text.now) }
{
    let id = split_one(text).ok_or(UNREADABLE)?;
    id_argument(alloc, id)
}

/// The id of a pool or of a job, and the body after it, if there is a space; by this rule there has to be one, or none, or either.
#[tactic(auto, unfolding(crate::specs::Arguments::id_and_body))]
pub fn id_and_body(
    alloc: Global,
    rule: BodyRule,
    text: &[u8],
) -> Result<(Id, Option<&[u8]>), Fail<Refusal>>
    ensures { GivesAs (λ parts. (parts.0, option_map (λ body. body.now) parts.1)) result (id_and_body rule text.now) }
{
    let (id, body) = split_word(text);
    if !rule.allows(body.is_some()) {
        return Err(UNREADABLE);
    }
    let id = id_argument(alloc, id)?;
    Ok((id, body))
}

/// The ids of a job and of a task of it, which are the only arguments of a line.
#[tactic(auto, unfolding(crate::specs::Arguments::job_and_task))]
pub fn job_and_task(alloc: Global, text: &[u8]) -> Result<(Id, Id), Fail<Refusal>>
    ensures { Gives result (job_and_task text.now) }
{
    let (job, task) = split_just_two(text).ok_or(UNREADABLE)?;
    let job = id_argument(alloc, job)?;
    let task = id_argument(alloc, task)?;
    Ok((job, task))
}
