//! Requests and what they are, written by hand from the profile.
ghost use Rattle.std.specs.Prelude.{◌≡◌};
ghost use Rattle.http_routes.specs.Table.{route_rows};

use bt_rows::event::EventKind;
use bt_rows::refusal::Refusal;
use bt_rows::reply::Reply;
use http_requests::{Wanted, read_request, reply_response};
use http_routes::{Route, make_router};
use matchit::Router;
use std::alloc::Global;
use std::test::Fail;
use table_reads::Read;

const ROUTE_NOT_FOUND: &str = "{\"code\":\"RouteNotFound\",\"number\":0,\"values\":[]}";

const METHOD_NOT_ALLOWED: &str = "{\"code\":\"MethodNotAllowed\",\"number\":0,\"values\":[]}";

const MAX_RESULTS: &str =
    "{\"code\":\"InvalidPropertyValue\",\"number\":2,\"values\":[\"maxresults\"]}";

const AFTER: &str = "{\"code\":\"InvalidPropertyValue\",\"number\":2,\"values\":[\"after\"]}";

const ID: &str = "{\"code\":\"InvalidPropertyValue\",\"number\":2,\"values\":[\"id\"]}";

const TARGET: &str =
    "{\"code\":\"InvalidPropertyValue\",\"number\":2,\"values\":[\"targetDedicatedNodes\"]}";

const FORMULA: &str =
    "{\"code\":\"InvalidPropertyValue\",\"number\":2,\"values\":[\"autoScaleFormula\"]}";

const UNREADABLE: &str = "{\"code\":\"UnreadableBody\",\"number\":1,\"values\":[]}";

/// Requests that are answered as they are read: method, target, body, status, the body of the response.
const ANSWERED: &[(&[u8], &str, &[u8], u16, &str)] = &[
    (b"GET", "/x", b"", 404, ROUTE_NOT_FOUND),
    (b"get", "/jobs", b"", 405, METHOD_NOT_ALLOWED),
    (b"GET", "/jobs?maxresults=0&after=!", b"", 400, MAX_RESULTS),
    (b"GET", "/jobs?maxresults=1001", b"", 400, MAX_RESULTS),
    (
        b"GET",
        "/jobs?maxresults=000000000000000000001",
        b"",
        400,
        MAX_RESULTS,
    ),
    (b"GET", "/jobs?maxresults", b"", 400, MAX_RESULTS),
    (b"GET", "/jobs?maxresults=%31", b"", 400, MAX_RESULTS),
    (b"GET", "/jobs?maxresults=2&after=", b"", 400, AFTER),
    (b"GET", "/jobs?after=%61", b"", 400, AFTER),
    (b"GET", "/jobs/a.b/tasks?maxresults=0", b"", 400, ID),
    (b"POST", "/jobs/%6A/tasks", b"", 400, ID),
    (b"DELETE", "/jobs/j/tasks/t.t", b"", 400, ID),
    (b"POST", "/jobs", b"", 400, UNREADABLE),
    (b"POST", "/jobs/j/disable", b"[]", 400, UNREADABLE),
    (b"PATCH", "/jobs/j", b"", 400, UNREADABLE),
    (b"DELETE", "/pools/p.p", b"", 400, ID),
    (b"POST", "/pools/p/resize", b"{}", 400, TARGET),
    (b"POST", "/pools/p/resize", b"", 400, UNREADABLE),
    (b"POST", "/pools/p.p/stopresize", b"", 400, ID),
    (b"POST", "/pools/p/enableautoscale", b"", 400, UNREADABLE),
    (b"POST", "/pools/p.p/disableautoscale", b"", 400, ID),
    (b"POST", "/pools/p/evaluateautoscale", b"{}", 400, FORMULA),
    (
        b"POST",
        "/pools/p.p/evaluateautoscale?maxresults=0",
        b"{}",
        400,
        ID,
    ),
];

/// Whether this is a response with this status and this body.
fn is_response(wanted: &Wanted, status: u16, body: &str) -> bool {
    match wanted {
        Wanted::Answered(response) => {
            response.status.as_u16() == status && response.body.as_str() == body
        }
        Wanted::Call(_) | Wanted::Look(_) => false,
    }
}

/// Whether a request is answered as it is read, with this status and this body.
fn is_answered(
    alloc: Global,
    router: &Router<Route>,
    request: &(&[u8], &str, &[u8], u16, &str),
) -> Result<bool, Fail>
    requires { router.now ≡ route_rows }
{
    let (method, target, body, status, answer) = request;
    let wanted = read_request(alloc, router, method, target, body)?;
    let found = is_response(&wanted, *status, answer);
    drop(wanted);
    Ok(found)
}

#[test]
fn some_requests_are_answered_as_they_are_read(rt: HostRuntime) -> Result<(), Fail> {
    let alloc = rt.alloc();
    let router = make_router(alloc)?;
    for request in ANSWERED {
        assert!(rt; is_answered(alloc, &router, request)?, "{}", request.1);
    }
    Ok(())
}

/// Whether this is the read of so many jobs after this id.
fn is_list_of_jobs(wanted: &Wanted, count: u32, id: &str) -> bool {
    match wanted {
        Wanted::Look(Read::ListJobs(listing)) => match &listing.after {
            Some(after) => listing.count == count && after.as_str() == id,
            None => false,
        },
        _ => false,
    }
}

/// Whether a request asks for the list of so many jobs after this id.
fn lists_jobs(
    alloc: Global,
    router: &Router<Route>,
    target: &str,
    count: u32,
    id: &str,
) -> Result<bool, Fail>
    requires { router.now ≡ route_rows }
{
    let wanted = read_request(alloc, router, b"GET", target, b"{")?;
    let found = is_list_of_jobs(&wanted, count, id);
    drop(wanted);
    Ok(found)
}

/// Whether this is the call that terminates a job without a reason.
fn is_termination(wanted: &Wanted) -> bool {
    match wanted {
        Wanted::Call(event) => match event.kind() {
            EventKind::TerminateJob(_, reason) => reason.get().is_none(),
            _ => false,
        },
        _ => false,
    }
}

/// Whether a request terminates a job without a reason.
fn terminates(alloc: Global, router: &Router<Route>, target: &str) -> Result<bool, Fail>
    requires { router.now ≡ route_rows }
{
    let wanted = read_request(alloc, router, b"POST", target, b"")?;
    let found = is_termination(&wanted);
    drop(wanted);
    Ok(found)
}

#[test]
fn others_are_reads_and_calls(rt: HostRuntime) -> Result<(), Fail> {
    let alloc = rt.alloc();
    let router = make_router(alloc)?;
    let target = "/jobs?api-version=1&maxresults=002&after=A&maxresults=0&after";
    assert!(rt; lists_jobs(alloc, &router, target, 2, "A")?);
    assert!(rt; terminates(alloc, &router, "/jobs/j/terminate?after=")?);
    Ok(())
}

/// Requests that are calls: method, target, body, and the name of the operation.
const CALLS: &[(&[u8], &str, &[u8], &str)] = &[
    (b"POST", "/pools", b"{\"id\":\"p\"}", "add-pool"),
    (b"DELETE", "/pools/p", b"{", "delete-pool"),
    (
        b"POST",
        "/pools/p/resize",
        b"{\"targetDedicatedNodes\":0}",
        "resize",
    ),
    (b"POST", "/pools/p/stopresize", b"{", "stop-resize"),
    (
        b"POST",
        "/pools/p/enableautoscale",
        b"{}",
        "enable-autoscale",
    ),
    (
        b"POST",
        "/pools/p/disableautoscale",
        b"",
        "disable-autoscale",
    ),
    (
        b"POST",
        "/pools/p/evaluateautoscale",
        b"{\"autoScaleFormula\":\"\"}",
        "evaluate-autoscale",
    ),
    (
        b"POST",
        "/jobs",
        b"{\"id\":\"j\",\"poolInfo\":{\"poolId\":\"p\"}}",
        "add-job",
    ),
    (b"PATCH", "/jobs/j", b"{}", "patch-job"),
    (
        b"POST",
        "/jobs/j/disable",
        b"{\"disableTasks\":\"wait\"}",
        "disable-job",
    ),
    (b"POST", "/jobs/j/enable", b"{", "enable-job"),
    (b"POST", "/jobs/j/terminate", b"{}", "terminate-job"),
    (b"DELETE", "/jobs/j", b"{", "delete-job"),
    (
        b"POST",
        "/jobs/j/tasks",
        b"{\"id\":\"t\",\"commandLine\":\"a\"}",
        "add-task",
    ),
    (
        b"POST",
        "/jobs/j/addtaskcollection",
        b"{\"value\":[]}",
        "add-tasks",
    ),
    (b"DELETE", "/jobs/j/tasks/t", b"{", "delete-task"),
    (b"POST", "/jobs/j/tasks/t/terminate", b"{", "terminate-task"),
    (
        b"POST",
        "/jobs/j/tasks/t/reactivate",
        b"{",
        "reactivate-task",
    ),
];

/// The name of the operation that is called; empty if none is.
fn called(wanted: &Wanted) -> &'static str {
    let Wanted::Call(event) = wanted else {
        return "";
    };
    match event.kind() {
        EventKind::AddPool(_) => "add-pool",
        EventKind::DeletePool(_) => "delete-pool",
        EventKind::Resize(_, _) => "resize",
        EventKind::StopResize(_) => "stop-resize",
        EventKind::EnableAutoscale(_, _) => "enable-autoscale",
        EventKind::DisableAutoscale(_) => "disable-autoscale",
        EventKind::EvaluateAutoscale(_, _) => "evaluate-autoscale",
        EventKind::AddJob(_, _) => "add-job",
        EventKind::PatchJob(_, _) => "patch-job",
        EventKind::DisableJob(_, _) => "disable-job",
        EventKind::EnableJob(_) => "enable-job",
        EventKind::TerminateJob(_, _) => "terminate-job",
        EventKind::DeleteJob(_) => "delete-job",
        EventKind::AddTask(_, _) => "add-task",
        EventKind::AddTasks(_, _) => "add-tasks",
        EventKind::DeleteTask(_, _) => "delete-task",
        EventKind::TerminateTask(_, _) => "terminate-task",
        EventKind::ReactivateTask(_, _) => "reactivate-task",
        _ => "",
    }
}

/// Whether a request is a call of the operation with its name.
fn is_called(
    alloc: Global,
    router: &Router<Route>,
    request: &(&[u8], &str, &[u8], &str),
) -> Result<bool, Fail>
    requires { router.now ≡ route_rows }
{
    let (method, target, body, name) = request;
    let wanted = read_request(alloc, router, method, target, body)?;
    let found = called(&wanted) == *name;
    drop(wanted);
    Ok(found)
}

#[test]
fn routes_and_methods_are_their_operations(rt: HostRuntime) -> Result<(), Fail> {
    let alloc = rt.alloc();
    let router = make_router(alloc)?;
    for request in CALLS {
        assert!(rt; is_called(alloc, &router, request)?, "{}", request.3);
    }
    Ok(())
}

/// Whether the response to a reply has this status and this body.
fn is_shown(alloc: Global, reply: &Reply, status: u16, body: &str) -> Result<bool, Fail> {
    let response = reply_response(alloc, reply)?;
    Ok(response.status.as_u16() == status && response.body.as_str() == body)
}

#[test]
fn refusals_are_responses(rt: HostRuntime) -> Result<(), Fail> {
    let body = "{\"code\":\"JobNotFound\",\"number\":13,\"values\":[]}";
    assert!(rt; is_shown(rt.alloc(), &Reply::Refused(Refusal::JobNotFound), 404, body)?);
    Ok(())
}
