//! Where a request goes. The target of a request is cut into its path and its query; the path names a route, by the kit's
//! `matchit`, and the route and the method name an operation (Azure Batch REST reference, in this project's profile). A path
//! without a route, and a route that does not have the method, are answers of their own; the second has the methods that the
//! route has, in the order in which `Allow` lists them (RFC 9110, section 10.2.1). The members of a query and the segments of a
//! path are found here too; what they mean is said where they are read.
#![tactic(auto)]

mod method;
mod route;
mod table;
mod target;

pub use method::{AllowedMethods, Method, Routing, allow, is_head, route_request};
pub use route::Route;
pub use table::{find_route, make_router};
pub use target::{path_segment, query_value, split_target};
