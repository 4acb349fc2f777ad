//! Methods of routes.
ghost use Rattle.std.specs.Prelude.{◌≡◌};
ghost use Rattle.std.specs.Str.{bytes_eq};
ghost use Rattle.http_routes.specs.Table.{route_rows};
ghost use Rattle.http_routes.specs.Methods.{method_of, methods_of, allow_text, allows, routing, head_text};

use crate::route::Route;
use crate::table::find_route;
use matchit::Router;

/// A method that some route has (RFC 9110, section 9; PATCH is RFC 5789).
#[derive(Clone, Copy, Debug, PartialEq, Eq)]
pub enum Method {
    /// `GET`
    Get,
    /// `POST`
    Post,
    /// `PATCH`
    Patch,
    /// `DELETE`
    Delete,
}

/// The methods of a route.
#[derive(Clone, Copy, Debug, PartialEq, Eq)]
pub enum AllowedMethods {
    /// GET alone.
    Get,
    /// POST alone.
    Post,
    /// POST and GET.
    PostGet,
    /// GET and DELETE.
    GetDelete,
    /// GET, PATCH and DELETE.
    GetPatchDelete,
}

/// Where a request goes.
#[derive(Clone, Copy, Debug, PartialEq, Eq)]
pub enum Routing {
    /// The path names no route.
    NotFound,
    /// The path names a route that has these methods, and not that of the request.
    MethodNotAllowed(AllowedMethods),
    /// The route, and one of its methods.
    Found(Route, Method),
}

/// The method with this name, in upper-case letters (RFC 9110: names of methods are case-sensitive).
#[tactic(auto, unfolding(crate::specs::Methods::get_text, crate::specs::Methods::post_text, crate::specs::Methods::patch_text, crate::specs::Methods::delete_text))]
fn read_method(name: &[u8]) -> Option<Method>
    ensures { result ≡ method_of name.now }
{
    if name == b"GET".as_slice() {
        Some(Method::Get)
    } else if name == b"POST".as_slice() {
        Some(Method::Post)
    } else if name == b"PATCH".as_slice() {
        Some(Method::Patch)
    } else if name == b"DELETE".as_slice() {
        Some(Method::Delete)
    } else {
        None
    }
}

/// Whether the method with this name is HEAD, which no route has, and whose answers have no body (RFC 9110, section 9.3.2).
#[tactic(auto, unfolding(crate::specs::Methods::head_text))]
pub fn is_head(name: &[u8]) -> bool
    ensures { result ≡ bytes_eq name.now head_text }
{
    name == b"HEAD".as_slice()
}

/// The methods of a route.
fn methods_of(route: Route) -> AllowedMethods
    ensures { result ≡ methods_of route }
{
    match route {
        Route::Pools | Route::Jobs | Route::JobTasks => AllowedMethods::PostGet,
        Route::Pool | Route::Task => AllowedMethods::GetDelete,
        Route::Job => AllowedMethods::GetPatchDelete,
        Route::PoolNodes | Route::JobTaskCounts => AllowedMethods::Get,
        Route::PoolResize
        | Route::PoolStopResize
        | Route::PoolEnableAutoscale
        | Route::PoolDisableAutoscale
        | Route::PoolEvaluateAutoscale
        | Route::JobDisable
        | Route::JobEnable
        | Route::JobTerminate
        | Route::JobAddTasks
        | Route::TaskTerminate
        | Route::TaskReactivate => AllowedMethods::Post,
    }
}

/// Whether these methods have this one.
fn allows(methods: AllowedMethods, method: Method) -> bool
    ensures { result ≡ allows methods method }
{
    match method {
        Method::Get => !matches!(methods, AllowedMethods::Post),
        Method::Post => matches!(methods, AllowedMethods::Post | AllowedMethods::PostGet),
        Method::Patch => matches!(methods, AllowedMethods::GetPatchDelete),
        Method::Delete => matches!(
            methods,
            AllowedMethods::GetDelete | AllowedMethods::GetPatchDelete
        ),
    }
}

/// The value of the field `Allow` (RFC 9110, section 10.2.1): the methods in the order of the reference's routes.
#[tactic(auto, unfolding(crate::specs::Methods::allow_text))]
pub fn allow(methods: AllowedMethods) -> &'static str
    ensures { result.now ≡ allow_text methods }
{
    match methods {
        AllowedMethods::Get => "GET",
        AllowedMethods::Post => "POST",
        AllowedMethods::PostGet => "POST, GET",
        AllowedMethods::GetDelete => "GET, DELETE",
        AllowedMethods::GetPatchDelete => "GET, PATCH, DELETE",
    }
}

/// Where a request with this method and path goes. An unknown path goes before an unknown method. It does not allocate.
pub fn route_request(router: &Router<Route>, method: &[u8], path: &str) -> Routing
    requires { router.now ≡ route_rows }
    ensures { result ≡ routing method.now path.now }
{
    let Some(route) = find_route(router, path) else {
        return Routing::NotFound;
    };
    let methods = methods_of(route);
    match read_method(method) {
        Some(method) if allows(methods, method) => Routing::Found(route, method),
        _ => Routing::MethodNotAllowed(methods),
    }
}
