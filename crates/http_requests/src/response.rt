//! Replies as responses, and the responses that no reply is.
ghost use Rattle.std.specs.Prelude.{◌≡◌, IfOk};
ghost use Rattle.http_requests.specs.Responses.{valid_status, reply_status, error_body, reply_response, error_response, route_not_found, method_not_allowed};

use bt_base::{NoMemory, Text};
use bt_rows::reply::Reply;
use http::StatusCode;
use http_routes::{AllowedMethods, allow};
use http_serving::{ExtraField, Response};
use std::alloc::Global;
use wire_json::reply_json;
use wire_words::status_of;

/// The status with this number; 500 if it does not have three digits.
#[tactic(auto, unfolding(crate::specs::Responses::valid_status))]
fn valid_status(number: u16) -> StatusCode
    ensures { result ≡ valid_status number }
{
    match StatusCode::from_u16(number) {
        Ok(status) => status,
        Err(_) => StatusCode::INTERNAL_SERVER_ERROR,
    }
}

/// The status of a reply.
fn reply_status(reply: &Reply) -> StatusCode
    ensures { result ≡ reply_status reply.now }
{
    match reply {
        Reply::Status(number) => valid_status(*number),
        Reply::Refused(refusal) => valid_status(status_of(refusal)),
        _ => StatusCode::OK,
    }
}

/// The reply as a response: its status, and its JSON as the body. A refusal has the status of the reference, and the other replies
/// with JSON have 200. The only error is out of memory.
pub fn reply_response(alloc: Global, reply: &Reply) -> Result<Response, NoMemory>
    ensures { IfOk result (λ response. response ≡ reply_response reply.now) }
{
    Ok(Response {
        status: reply_status(reply),
        extra: None,
        body: reply_json(alloc, reply)?,
    })
}

/// An error object with this code, the number 0 and no values.
#[tactic(auto, unfolding(crate::specs::Responses::error_body))]
fn error_body(alloc: Global, code: &str) -> Result<Text, NoMemory>
    ensures { IfOk result (λ text. text ≡ error_body code.now) }
{
    let before = "{\"code\":\"";
    let after = "\",\"number\":0,\"values\":[]}";
    Text::of_string(format!(in alloc; "{before}{code}{after}")?)
}

/// A response with this status, whose body is an error object with this code, the number 0 and no values. The code has letters
/// alone. The only error is out of memory.
pub fn error_response(alloc: Global, status: StatusCode, code: &str) -> Result<Response, NoMemory>
    ensures { IfOk result (λ response. response ≡ error_response status code.now) }
{
    Ok(Response {
        status,
        extra: None,
        body: error_body(alloc, code)?,
    })
}

/// The response to a request whose path names no route.
#[tactic(auto, unfolding(crate::specs::Responses::route_not_found))]
pub fn route_not_found(alloc: Global) -> Result<Response, NoMemory>
    ensures { IfOk result (λ response. response ≡ route_not_found) }
{
    error_response(alloc, StatusCode::NOT_FOUND, "RouteNotFound")
}

/// The response to a request whose path names a route with these methods, which its own is not among.
#[tactic(auto, unfolding(crate::specs::Responses::method_not_allowed))]
pub fn method_not_allowed(alloc: Global, methods: AllowedMethods) -> Result<Response, NoMemory>
    ensures { IfOk result (λ response. response ≡ method_not_allowed methods) }
{
    let names = Text::of_string(String::from_str(alloc, allow(methods))?)?;
    Ok(Response {
        status: StatusCode::METHOD_NOT_ALLOWED,
        extra: Some(ExtraField::Allow(names)),
        body: error_body(alloc, "MethodNotAllowed")?,
    })
}
