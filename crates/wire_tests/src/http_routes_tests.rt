//! A test of what no clause says: that the router is made while memory is ample, so no two routes conflict.
use http_routes::{
    Method, Route, Routing, make_router, path_segment, query_value, route_request, split_target,
};
use std::test::Fail as TestFail;

#[test]
fn requests_are_routed(rt: HostRuntime) -> Result<(), TestFail> {
    let router = make_router(rt.alloc())?;
    let (path, query) = split_target("/jobs/j/tasks/t?maxresults=2&after=A");
    let found = route_request(&router, b"GET", path);
    assert_eq!(rt; found, Routing::Found(Route::Task, Method::Get));
    assert_eq!(rt; path_segment(path, 4), Some("t"));
    assert_eq!(rt; query_value(query, "after"), Some("A"));
    Ok(())
}
