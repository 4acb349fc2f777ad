//! Bodies of pools that scale automatically, as clients write them: what they are read as, and the member that is refused. Written by hand
//! from the profile.
use bt_base::Id;
use bt_rows::event::{Event, EventKind};
use bt_rows::member::Member;
use bt_rows::refusal::Refusal;
use std::alloc::Global;
use std::test::Fail;
use wire_operations::{Asked, PoolOperation, ServiceOperation, read_operation};

/// The requests that have these members.
#[derive(Clone, Copy, Debug, PartialEq, Eq)]
enum Request {
    AddPool,
    Enable,
    Evaluate,
}

/// What is asked with the body, of a pool with some id.
fn asked(alloc: Global, request: Request) -> Option<Asked> {
    let id = Id::read(alloc, "x").ok()?;
    match request {
        Request::AddPool => Some(Asked::Service(ServiceOperation::AddPool)),
        Request::Enable => Some(Asked::Pool(PoolOperation::EnableAutoscale, id)),
        Request::Evaluate => Some(Asked::Pool(PoolOperation::EvaluateAutoscale, id)),
    }
}

/// The event of the request with this body, if it is one.
fn event(alloc: Global, request: Request, body: &[u8]) -> Option<Event> {
    read_operation(alloc, asked(alloc, request)?, Some(body)).ok()
}

/// The member for which the body is refused, if it is refused for one.
fn refused(alloc: Global, request: Request, body: &[u8]) -> Option<Member> {
    match read_operation(alloc, asked(alloc, request)?, Some(body)) {
        Err(bt_base::Fail::Why(Refusal::InvalidPropertyValue(member))) => Some(member),
        _ => None,
    }
}

/// A formula and an interval, if there are any.
type Parts = (Option<&'static str>, Option<u64>);

/// Bodies, and what they say of the scaling of the pool. A pool that does not scale has neither part.
const READ: &[(Request, &[u8], Parts)] = &[
    (Request::AddPool, b"{\"id\":\"p\"}", (None, None)),
    (
        Request::AddPool,
        b"{\"id\": \"p\", \"vmSize\": \"standard_a1_v2\", \"resizeTimeout\": \"PT15M\", \"targetDedicatedNodes\": 2, \
        \"targetLowPriorityNodes\": 0, \"enableAutoScale\": false, \"taskSlotsPerNode\": 1, \
        \"taskSchedulingPolicy\": {\"nodeFillType\": \"spread\"}}",
        (None, None),
    ),
    (
        Request::AddPool,
        b"{\"id\":\"p\",\"targetDedicatedNodes\":1000,\"enableAutoScale\":null,\
        \"autoScaleFormula\":\"x\",\"autoScaleEvaluationInterval\":\"PT15M\"}",
        (None, None),
    ),
    (
        Request::AddPool,
        b"{\"id\": \"p\", \"vmSize\": \"standard_a1_v2\", \"enableAutoScale\": true, \
        \"autoScaleFormula\": \"$TargetDedicatedNodes = 1;\"}",
        (Some("$TargetDedicatedNodes = 1;"), Some(900_000)),
    ),
    (
        Request::AddPool,
        b"{\"autoScaleEvaluationInterval\":\"PT5M\",\"autoScaleFormula\":\"\",\
        \"enableAutoScale\":true,\"targetDedicatedNodes\":0,\"targetLowPriorityNodes\":0,\"id\":\"p\"}",
        (Some(""), Some(300_000)),
    ),
    (Request::Enable, b"{}", (None, None)),
    (
        Request::Enable,
        b"{\"autoScaleFormula\":null,\"autoScaleEvaluationInterval\":null}",
        (None, None),
    ),
    (
        Request::Enable,
        b"{\"autoScaleFormula\": \"x = 1;\\n\"}",
        (Some("x = 1;\n"), None),
    ),
    (
        Request::Enable,
        b"{\"autoScaleEvaluationInterval\": \"P7DT0.0009S\"}",
        (None, Some(604_800_000)),
    ),
    (
        Request::Evaluate,
        b"{\"autoScaleFormula\": \"$TargetDedicatedNodes\", \"autoScaleEvaluationInterval\": 1}",
        (Some("$TargetDedicatedNodes"), None),
    ),
];

/// Whether the event has this formula and this interval, and adds no nodes if it adds a pool that scales.
fn has_parts(event: &Event, (formula, interval): Parts) -> bool {
    match event.kind() {
        EventKind::AddPool(spec) => match &spec.get().scale {
            None => formula.is_none() && interval.is_none(),
            Some(scaling) => {
                formula == Some(scaling.formula.as_str())
                    && interval == Some(scaling.interval)
                    && spec.get().dedicated == 0
            }
        },
        EventKind::EnableAutoscale(_, spec) => {
            let stated = spec.get().formula.as_ref().map(|text| text.as_str());
            formula == stated && interval == spec.get().interval
        }
        EventKind::EvaluateAutoscale(_, text) => formula == Some(text.as_str()),
        _ => false,
    }
}

#[test]
fn formulas_and_intervals_are_read(rt: HostRuntime) -> Result<(), Fail> {
    for (request, body, parts) in READ {
        let event = event(rt.alloc(), *request, body);
        let found = event.as_ref().is_some_and(|event| has_parts(event, *parts));
        assert!(rt; found, "{body:?}");
    }
    Ok(())
}

/// Bodies, and the member for which they are refused.
const REFUSED: &[(Request, &[u8], Member)] = &[
    (
        Request::AddPool,
        b"{\"id\":\"p\",\"enableAutoScale\":true,\"autoScaleEvaluationInterval\":\"PT1M\"}",
        Member::AutoScaleFormula,
    ),
    (
        Request::AddPool,
        b"{\"id\":\"p\",\"targetDedicatedNodes\":1,\"taskSlotsPerNode\":0,\"enableAutoScale\":true}",
        Member::TargetDedicatedNodes,
    ),
    (
        Request::AddPool,
        b"{\"id\":\"p\",\"targetLowPriorityNodes\":1,\"enableAutoScale\":true}",
        Member::TargetLowPriorityNodes,
    ),
    (
        Request::AddPool,
        b"{\"id\":\"p\",\"targetDedicatedNodes\":1,\"enableAutoScale\":1,\"autoScaleFormula\":1}",
        Member::EnableAutoScale,
    ),
    (
        Request::AddPool,
        b"{\"id\":\"p\",\"enableAutoScale\":\"true\",\"startTask\":{}}",
        Member::CommandLine,
    ),
    (
        Request::AddPool,
        b"{\"id\":\"p\",\"targetDedicatedNodes\":1,\"enableAutoScale\":false,\"autoScaleFormula\":[]}",
        Member::AutoScaleFormula,
    ),
    (
        Request::AddPool,
        b"{\"id\":\"p\",\"targetDedicatedNodes\":1,\"autoScaleEvaluationInterval\":\"PT4M59.9999S\"}",
        Member::AutoScaleEvaluationInterval,
    ),
    (
        Request::AddPool,
        b"{\"id\":\"p\",\"enableAutoScale\":true,\"autoScaleFormula\":\"\",\
        \"autoScaleEvaluationInterval\":\"P10675199DT2H48M5.4775807S\"}",
        Member::AutoScaleEvaluationInterval,
    ),
    (
        Request::Enable,
        b"{\"autoScaleFormula\":true,\"autoScaleEvaluationInterval\":0}",
        Member::AutoScaleFormula,
    ),
    (
        Request::Enable,
        b"{\"autoScaleFormula\":\"\",\"autoScaleEvaluationInterval\":\"P7DT0.001S\"}",
        Member::AutoScaleEvaluationInterval,
    ),
    (
        Request::Enable,
        b"{\"autoScaleEvaluationInterval\":900000}",
        Member::AutoScaleEvaluationInterval,
    ),
    (Request::Evaluate, b"{}", Member::AutoScaleFormula),
    (
        Request::Evaluate,
        b"{\"autoScaleFormula\":null}",
        Member::AutoScaleFormula,
    ),
    (
        Request::Evaluate,
        b"{\"autoScaleFormula\":5}",
        Member::AutoScaleFormula,
    ),
];

#[test]
fn bodies_are_refused_for_their_first_fault(rt: HostRuntime) -> Result<(), Fail> {
    for (request, body, member) in REFUSED {
        let found = refused(rt.alloc(), *request, body);
        assert!(rt; found == Some(*member), "{body:?}");
    }
    Ok(())
}

/// A body whose formula has a character of two bytes and so many blanks.
fn long_formula(alloc: Global, blanks: usize) -> Result<String, Fail> {
    let mut body = String::from_str(alloc, "{\"autoScaleFormula\":\"\u{e9}")?;
    for _ in 0..blanks {
        body.push(' ')?;
    }
    body.push_str("\"}")?;
    Ok(body)
}

#[test]
fn a_formula_has_at_most_8192_bytes(rt: HostRuntime) -> Result<(), Fail> {
    let alloc = rt.alloc();
    for request in [Request::Enable, Request::Evaluate] {
        let longest = long_formula(alloc, 8_190)?;
        assert!(rt; event(alloc, request, longest.as_bytes()).is_some());
        let longer = long_formula(alloc, 8_191)?;
        let found = refused(alloc, request, longer.as_bytes());
        assert!(rt; found == Some(Member::AutoScaleFormula));
    }
    Ok(())
}
