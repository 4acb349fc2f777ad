//! Answers of calls and of reads as responses.
ghost use Rattle.std.specs.Prelude.{◌≡◌, IfOk};
ghost use Rattle.batch_http.specs.Responses.{stop_field, done_response, keeper_fault, journal_full, out_of_memory, answer_response, look_response};

use batch_desk::{Answer, Stop};
use bt_base::NoMemory;
use bt_rows::reply::Reply;
use http::StatusCode;
use http_requests::{error_response, reply_response};
use http_serving::{ExtraField, Response, StopCause};
use std::alloc::Global;

/// The field that says why due steps stopped before none applied.
fn stop_field(stop: Stop) -> Option<ExtraField>
    ensures { result ≡ stop_field stop }
{
    match stop {
        Stop::Rest => None,
        Stop::KeeperFault => Some(ExtraField::BatchStop(StopCause::KeeperFault)),
        Stop::Memory => Some(ExtraField::BatchStop(StopCause::Memory)),
    }
}

/// The response to a call that was made.
fn done_response(alloc: Global, reply: &Reply, stop: Stop) -> Result<Response, NoMemory>
    ensures { IfOk result (λ response. response ≡ done_response reply.now stop) }
{
    let Response {
        status,
        extra: _,
        body,
    } = reply_response(alloc, reply)?;
    Ok(Response {
        status,
        extra: stop_field(stop),
        body,
    })
}

/// The response to a call that was not saved.
#[tactic(auto, unfolding(crate::specs::Responses::keeper_fault))]
fn keeper_fault(alloc: Global) -> Result<Response, NoMemory>
    ensures { IfOk result (λ response. response ≡ keeper_fault) }
{
    error_response(alloc, StatusCode::INTERNAL_SERVER_ERROR, "KeeperFault")
}

/// The response to a call that the full journal did not take.
#[tactic(auto, unfolding(crate::specs::Responses::journal_full))]
fn journal_full(alloc: Global) -> Result<Response, NoMemory>
    ensures { IfOk result (λ response. response ≡ journal_full) }
{
    error_response(alloc, StatusCode::SERVICE_UNAVAILABLE, "JournalFull")
}

/// The response to a call or a read that ran out of memory.
#[tactic(auto, unfolding(crate::specs::Responses::out_of_memory))]
fn out_of_memory(alloc: Global) -> Result<Response, NoMemory>
    ensures { IfOk result (λ response. response ≡ out_of_memory) }
{
    error_response(alloc, StatusCode::SERVICE_UNAVAILABLE, "Memory")
}

/// The answer of a call as a response. The only error is out of memory.
pub fn answer_response(alloc: Global, answer: &Answer) -> Result<Response, NoMemory>
    ensures { IfOk result (λ response. response ≡ answer_response answer.now) }
{
    match answer {
        Answer::Done { reply, stop, .. } => done_response(alloc, reply, *stop),
        Answer::KeeperFault => keeper_fault(alloc),
        Answer::JournalFull => journal_full(alloc),
        Answer::Memory => out_of_memory(alloc),
    }
}

/// What a read showed as a response. The only error is out of memory.
pub fn look_response(alloc: Global, shown: &Result<Reply, NoMemory>) -> Result<Response, NoMemory>
    ensures { IfOk result (λ response. response ≡ look_response shown.now) }
{
    match shown {
        Ok(reply) => reply_response(alloc, reply),
        Err(_) => out_of_memory(alloc),
    }
}
