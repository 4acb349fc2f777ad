//! The trait of services.
ghost use Rattle.std.specs.Prelude.{IfOk, OnErr};
ghost use Rattle.http_serving.specs.declared.response.Response.{Response};
ghost use Rattle.http_serving.specs.Services.{Request, LosesResponse};

use crate::response::Response;
use bt_base::NoMemory;
use std::alloc::Global;

/// What answers requests: it knows the routes, reads bodies, asks its clock for the moment of a call, and has what is called.
pub trait Service {
    /// A relation between the service before a request, the request, the response, and the service after it. It says which
    /// call or read the request was, and which responses it may have.
    ghost answers: { Self → Request → Response → Self → Type 0 };

    /// Answers a request. The target is not decoded. Returns an error only if it is out of memory; then the service is as it
    /// was, or the request had its effect and the response is lost.
    fn answer(
        &mut self,
        alloc: Global,
        method: &[u8],
        target: &str,
        body: &[u8],
    ) -> Result<Response, NoMemory>
        ensures answered { IfOk result (λ response. answers self.old
            (record { method = method.now; target = target.now; body = body.now }) response self.new) }
        ensures lost { OnErr result (LosesResponse answers
            (record { method = method.now; target = target.now; body = body.now }) self.old self.new) };
}
