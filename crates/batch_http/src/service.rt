//! The service over an asker and a clock.
ghost use Rattle.std.specs.Prelude.{◌≡◌, IfOk, IfErr, OnErr};
ghost use Rattle.http_routes.specs.Table.{route_rows};
ghost use Rattle.http_serving.specs.declared.response.Response.{Response};
ghost use Rattle.batch_http.specs.Services.{IsCall, IsLook, Answers};

use crate::response::{answer_response, look_response};
use batch_desk::Ask;
use bt_base::NoMemory;
use bt_clock::Clock;
use bt_rows::event::Event;
use http_requests::{Wanted, read_request};
use http_routes::{Route, make_router};
use http_serving::{Response, Service};
use matchit::Router;
use std::alloc::Global;
use std::marker::Model;
use table_reads::Read;

/// Answers requests by calls and reads of an asker. The moment of a call is asked of the clock, once, and of nothing else.
pub struct HttpService<A: Ask, C: Clock> {
    asker: A,
    clock: C,
    router: Router<Route>,
}

impl<A: Ask, C: Clock> Model for HttpService<A, C> {
    ghost use Rattle.std.specs.Prelude.{◌≡◌};
    ghost use Rattle.http_routes.specs.Table.{route_rows};
    ghost use Rattle.batch_http.specs.Services.{HttpService as Seen};

    ghost Value = { Seen A C };

    ghost view = { λ service. record { asker = service.asker; clock = service.clock } };

    ghost invariant = { λ service. service.router ≡ route_rows };
}

impl<A: Ask, C: Clock> HttpService<A, C> {
    /// A service over this asker and this clock. The only error is out of memory, and returns both.
    pub fn new(alloc: Global, asker: A, clock: C) -> Result<HttpService<A, C>, (A, C)>
        ensures made { IfOk result (λ service. service ≡ record { asker = asker; clock = clock }) }
        ensures back { IfErr result (λ parts. parts ≡ (asker, clock)) }
    {
        match make_router(alloc) {
            Ok(router) => Ok(HttpService {
                asker,
                clock,
                router,
            }),
            Err(_) => Err((asker, clock)),
        }
    }

    /// The asker and the clock.
    pub fn into_parts(self) -> (A, C)
        ensures { result ≡ (self.asker, self.clock) }
    {
        let HttpService {
            asker,
            clock,
            router: _router,
        } = self;
        (asker, clock)
    }

    /// Makes a call of this event.
    fn call(&mut self, alloc: Global, event: Event) -> Result<Response, NoMemory>
        ensures answered { IfOk result (λ response. IsCall A.exchanged C.gives self.old event response self.new) }
        ensures lost { OnErr result ((response : Response) × IsCall A.exchanged C.gives self.old event response self.new) }
    {
        let moment = self.clock.now();
        let answer = self.asker.ask(alloc, moment, event);
        let response = answer_response(alloc, &answer);
        drop(answer);
        response
    }

    /// Makes a read.
    fn look(&mut self, alloc: Global, read: &Read) -> Result<Response, NoMemory>
        ensures answered { IfOk result (λ response. IsLook A.exchanged self.old read.now response self.new) }
        ensures lost { OnErr result ((response : Response) × IsLook A.exchanged self.old read.now response self.new) }
    {
        let shown = self.asker.look(alloc, read);
        let response = look_response(alloc, &shown);
        drop(shown);
        response
    }
}

impl<A: Ask, C: Clock> Service for HttpService<A, C> {
    ghost answers = { Answers A.exchanged C.gives };

    fn answer(
        &mut self,
        alloc: Global,
        method: &[u8],
        target: &str,
        body: &[u8],
    ) -> Result<Response, NoMemory> {
        match read_request(alloc, &self.router, method, target, body) {
            Ok(Wanted::Answered(response)) => Ok(response),
            Ok(Wanted::Call(event)) => self.call(alloc, event),
            Ok(Wanted::Look(read)) => self.look(alloc, &read),
            Err(NoMemory) => Err(NoMemory),
        }
    }
}
