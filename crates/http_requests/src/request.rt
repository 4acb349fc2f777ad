//! What a request asks for.
ghost use Rattle.std.specs.Prelude.{◌≡◌, IfOk};
ghost use Rattle.bt_base.specs.Fails.{Gives};
ghost use Rattle.http_routes.specs.Table.{route_rows};
ghost use Rattle.http_requests.specs.Requests.{request_for, refused_or, wanted_by, wanted_of};

use crate::event::event_for;
use crate::look::read_for;
use crate::response::{method_not_allowed, reply_response, route_not_found};
use bt_base::{Fail, NoMemory};
use bt_rows::event::Event;
use bt_rows::refusal::Refusal;
use bt_rows::reply::Reply;
use http_routes::{Method, Route, Routing, route_request, split_target};
use http_serving::Response;
use matchit::Router;
use std::alloc::Global;
use table_reads::Read;

/// What a request asks for.
#[derive(Drop)]
pub enum Wanted {
    /// A call of this event.
    Call(Event),
    /// A read.
    Look(Read),
    /// Neither: this is the response.
    Answered(Response),
}

/// The call or the read that a request with this method of its route is.
#[tactic(auto, unfolding(crate::specs::Requests::request_for))]
fn request_for(
    alloc: Global,
    route: Route,
    method: Method,
    path: &str,
    query: &str,
    body: &[u8],
) -> Result<Wanted, Fail<Refusal>>
    ensures { Gives result (request_for route method path.now query.now body.now) }
{
    match method {
        Method::Get => Ok(Wanted::Look(read_for(alloc, route, path, query)?)),
        Method::Post | Method::Patch | Method::Delete => {
            let event = event_for(alloc, route, method, path, body)?;
            Ok(Wanted::Call(event))
        }
    }
}

/// What a request with this method of its route asks for; a refusal is its response.
fn wanted_for(
    alloc: Global,
    route: Route,
    method: Method,
    path: &str,
    query: &str,
    body: &[u8],
) -> Result<Wanted, NoMemory>
    ensures { IfOk result (λ wanted. wanted ≡ refused_or (request_for route method path.now query.now body.now)) }
{
    match request_for(alloc, route, method, path, query, body) {
        Ok(wanted) => Ok(wanted),
        Err(Fail::Why(refusal)) => Ok(Wanted::Answered(reply_response(
            alloc,
            &Reply::Refused(refusal),
        )?)),
        Err(Fail::Memory) => Err(NoMemory),
    }
}

/// What the request with this method, target and body asks for, by the router of http_routes.
///
/// A path that names no route has the response 404 `RouteNotFound`, and one whose route lacks the method 405 `MethodNotAllowed` with
/// the field `Allow`. Else the request is the call or the read of its route, unless it is refused: first for an id of the path,
/// then for `maxresults` and for `after` of a list's query, or for the body. Such a refusal, `InvalidPropertyValue` or `UnreadableBody`,
/// is the response. Operations without a body do not look at it. The only error is out of memory.
#[tactic(auto, unfolding(crate::specs::Requests::wanted_of))]
pub fn read_request(
    alloc: Global,
    router: &Router<Route>,
    method: &[u8],
    target: &str,
    body: &[u8],
) -> Result<Wanted, NoMemory>
    requires { router.now ≡ route_rows }
    ensures { IfOk result (λ wanted. wanted ≡ wanted_of method.now target.now body.now) }
{
    let (path, query) = split_target(target);
    match route_request(router, method, path) {
        Routing::NotFound => Ok(Wanted::Answered(route_not_found(alloc)?)),
        Routing::MethodNotAllowed(methods) => Ok(Wanted::Answered(method_not_allowed(
            alloc, methods,
        )?)),
        Routing::Found(route, method) => wanted_for(alloc, route, method, path, query, body),
    }
}
