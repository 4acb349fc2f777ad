//! The ids in a path. They are not percent-decoded.
ghost use Rattle.bt_base.specs.Fails.{Gives};
ghost use Rattle.http_requests.specs.Paths.{id_at, first_id, job_and_task};

use bt_base::{Fail, Id};
use bt_rows::member::Member;
use bt_rows::refusal::Refusal;
use http_routes::path_segment;
use std::alloc::Global;
use wire_members::invalid_property;

/// The id that is the segment of the path at this place.
fn id_at(alloc: Global, path: &str, place: usize) -> Result<Id, Fail<Refusal>>
    ensures { Gives result (id_at place path.now) }
{
    let Some(text) = path_segment(path, place) else {
        return Err(invalid_property(Member::Id));
    };
    match Id::read(alloc, text) {
        Ok(id) => Ok(id),
        Err(Fail::Why(_)) => Err(invalid_property(Member::Id)),
        Err(Fail::Memory) => Err(Fail::Memory),
    }
}

/// The id of the pool or of the job that the path names.
pub fn first_id(alloc: Global, path: &str) -> Result<Id, Fail<Refusal>>
    ensures { Gives result (first_id path.now) }
{
    id_at(alloc, path, 2)
}

/// The ids of the job and of its task that the path names.
#[tactic(auto, unfolding(crate::specs::Paths::job_and_task))]
pub fn job_and_task(alloc: Global, path: &str) -> Result<(Id, Id), Fail<Refusal>>
    ensures { Gives result (job_and_task path.now) }
{
    let job = first_id(alloc, path)?;
    let task = id_at(alloc, path, 4)?;
    Ok((job, task))
}
