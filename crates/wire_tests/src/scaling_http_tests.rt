//! Connections whose requests are of pools that scale automatically. All calls are made at moment 0. Written by hand from the profile.
use crate::batch_http_tests::gives;
use http_serving::End;
use std::test::Fail;

/// Requests, and their answers.
const CONNECTIONS: &[(&[u8], &[u8])] = &[
    // What is refused of a pool that does not scale.
    (
        b"POST /pools HTTP/1.1\r\nHost: localhost\r\nContent-Length: 83\r\n\r\n{\"id\":\"p\",\"targetDedicatedNodes\":1,\"enableAutoScale\":false,\"autoScaleFormula\":null}POST /pools/p/disableautoscale HTTP/1.1\r\nHost: localhost\r\n\r\nPOST /pools/p/enableautoscale HTTP/1.1\r\nHost: localhost\r\nContent-Length: 2\r\n\r\n{}POST /pools/p/evaluateautoscale HTTP/1.1\r\nHost: localhost\r\nContent-Length: 28\r\n\r\n{\"autoScaleFormula\":\"x = ;\"}POST /pools/p/enableautoscale HTTP/1.1\r\nHost: localhost\r\nContent-Length: 28\r\n\r\n{\"autoScaleFormula\":\"x = ;\"}GET /pools/p HTTP/1.1\r\nHost: localhost\r\n\r\n",
        b"HTTP/1.1 201 Created\r\nContent-Length: 0\r\n\r\nHTTP/1.1 409 Conflict\r\nContent-Type: application/json\r\nContent-Length: 50\r\n\r\n{\"code\":\"PoolDoesNotScale\",\"number\":8,\"values\":[]}HTTP/1.1 409 Conflict\r\nContent-Type: application/json\r\nContent-Length: 50\r\n\r\n{\"code\":\"PoolDoesNotScale\",\"number\":8,\"values\":[]}HTTP/1.1 409 Conflict\r\nContent-Type: application/json\r\nContent-Length: 50\r\n\r\n{\"code\":\"PoolDoesNotScale\",\"number\":8,\"values\":[]}HTTP/1.1 400 Bad Request\r\nContent-Type: application/json\r\nContent-Length: 70\r\n\r\n{\"code\":\"FormulaRefused\",\"number\":10,\"values\":[\"UnexpectedToken\",\"4\"]}HTTP/1.1 200 OK\r\nContent-Type: application/json\r\nContent-Length: 223\r\n\r\n{\"allocationState\":\"steady\",\"currentDedicatedNodes\":1,\"currentLowPriorityNodes\":0,\"enableAutoScale\":false,\"id\":\"p\",\"resizeErrors\":[],\"state\":\"active\",\"targetDedicatedNodes\":1,\"targetLowPriorityNodes\":0,\"taskSlotsPerNode\":1}",
    ),
    // A pool that scales is not resized by hand, and formulas are tried on it without a change.
    (
        b"POST /pools HTTP/1.1\r\nHost: localhost\r\nContent-Length: 35\r\n\r\n{\"id\":\"p\",\"targetDedicatedNodes\":1}POST /pools/P/enableautoscale?api=1 HTTP/1.1\r\nHost: localhost\r\nContent-Length: 86\r\n\r\n{\"autoScaleFormula\":\"$TargetDedicatedNodes = 2;\",\"autoScaleEvaluationInterval\":\"PT5M\"}POST /pools/p/enableautoscale HTTP/1.1\r\nHost: localhost\r\nContent-Length: 2\r\n\r\n{}POST /pools/p/resize HTTP/1.1\r\nHost: localhost\r\nContent-Length: 26\r\n\r\n{\"targetDedicatedNodes\":1}POST /pools/p/evaluateautoscale HTTP/1.1\r\nHost: localhost\r\nContent-Length: 74\r\n\r\n{\"autoScaleFormula\":\"$TargetDedicatedNodes = $CurrentDedicatedNodes * 3;\"}POST /pools/p/evaluateautoscale HTTP/1.1\r\nHost: localhost\r\nContent-Length: 42\r\n\r\n{\"autoScaleFormula\":\"x = \\\"a\\\"; y = 1/0;\"}POST /pools/p/evaluateautoscale HTTP/1.1\r\nHost: localhost\r\nContent-Length: 33\r\n\r\n{\"autoScaleFormula\":\"x = \\\"a\\\";\"}POST /pools/p/evaluateautoscale HTTP/1.1\r\nHost: localhost\r\nContent-Length: 28\r\n\r\n{\"autoScaleFormula\":\"x = ;\"}GET /pools/p HTTP/1.1\r\nHost: localhost\r\n\r\nPOST /pools/p/disableautoscale HTTP/1.1\r\nHost: localhost\r\n\r\nGET /pools/p HTTP/1.1\r\nHost: localhost\r\n\r\nPOST /pools/x/disableautoscale HTTP/1.1\r\nHost: localhost\r\n\r\n",
        b"HTTP/1.1 201 Created\r\nContent-Length: 0\r\n\r\nHTTP/1.1 200 OK\r\nContent-Length: 0\r\n\r\nHTTP/1.1 409 Conflict\r\nContent-Type: application/json\r\nContent-Length: 53\r\n\r\n{\"code\":\"AutoscaleTooSoon\",\"number\":9,\"values\":[\"0\"]}HTTP/1.1 409 Conflict\r\nContent-Type: application/json\r\nContent-Length: 57\r\n\r\n{\"code\":\"PoolScalesAutomatically\",\"number\":7,\"values\":[]}HTTP/1.1 200 OK\r\nContent-Type: application/json\r\nContent-Length: 95\r\n\r\n{\"results\":\"$TargetDedicatedNodes=6;$TargetLowPriorityNodes=0;$NodeDeallocationOption=requeue\"}HTTP/1.1 200 OK\r\nContent-Type: application/json\r\nContent-Length: 35\r\n\r\n{\"results\":\"error DivideByZero 14\"}HTTP/1.1 200 OK\r\nContent-Type: application/json\r\nContent-Length: 100\r\n\r\n{\"results\":\"$TargetDedicatedNodes=2;$TargetLowPriorityNodes=0;$NodeDeallocationOption=requeue;$x=a\"}HTTP/1.1 400 Bad Request\r\nContent-Type: application/json\r\nContent-Length: 70\r\n\r\n{\"code\":\"FormulaRefused\",\"number\":10,\"values\":[\"UnexpectedToken\",\"4\"]}HTTP/1.1 200 OK\r\nContent-Type: application/json\r\nContent-Length: 222\r\n\r\n{\"allocationState\":\"steady\",\"currentDedicatedNodes\":2,\"currentLowPriorityNodes\":0,\"enableAutoScale\":true,\"id\":\"p\",\"resizeErrors\":[],\"state\":\"active\",\"targetDedicatedNodes\":2,\"targetLowPriorityNodes\":0,\"taskSlotsPerNode\":1}HTTP/1.1 200 OK\r\nContent-Length: 0\r\n\r\nHTTP/1.1 200 OK\r\nContent-Type: application/json\r\nContent-Length: 223\r\n\r\n{\"allocationState\":\"steady\",\"currentDedicatedNodes\":2,\"currentLowPriorityNodes\":0,\"enableAutoScale\":false,\"id\":\"p\",\"resizeErrors\":[],\"state\":\"active\",\"targetDedicatedNodes\":2,\"targetLowPriorityNodes\":0,\"taskSlotsPerNode\":1}HTTP/1.1 404 Not Found\r\nContent-Type: application/json\r\nContent-Length: 46\r\n\r\n{\"code\":\"PoolNotFound\",\"number\":3,\"values\":[]}",
    ),
    // A pool whose formula is none, and paths: a sample has none.
    (
        b"POST /pools HTTP/1.1\r\nHost: localhost\r\nContent-Length: 61\r\n\r\n{\"id\":\"q\",\"enableAutoScale\":true,\"autoScaleFormula\":\"x = @;\"}GET /pools/q/enableautoscale HTTP/1.1\r\nHost: localhost\r\n\r\nPOST /pools/q/sample HTTP/1.1\r\nHost: localhost\r\nContent-Length: 3\r\n\r\n3.5",
        b"HTTP/1.1 400 Bad Request\r\nContent-Type: application/json\r\nContent-Length: 67\r\n\r\n{\"code\":\"FormulaRefused\",\"number\":10,\"values\":[\"BadCharacter\",\"4\"]}HTTP/1.1 405 Method Not Allowed\r\nContent-Type: application/json\r\nContent-Length: 50\r\nAllow: POST\r\n\r\n{\"code\":\"MethodNotAllowed\",\"number\":0,\"values\":[]}HTTP/1.1 404 Not Found\r\nContent-Type: application/json\r\nContent-Length: 47\r\n\r\n{\"code\":\"RouteNotFound\",\"number\":0,\"values\":[]}",
    ),
];

#[test]
fn pools_scale_over_http(rt: HostRuntime) -> Result<(), Fail> {
    for (text, answer) in CONNECTIONS {
        for size in [1, 20_000] {
            assert!(rt;
                gives(rt.alloc(), text, size, answer, End::Closed)?,
                "{answer:?}"
            );
        }
    }
    Ok(())
}
