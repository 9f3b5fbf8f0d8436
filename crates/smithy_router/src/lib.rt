// A router: from a request's method and target to the operation (Smithy, HTTP protocol bindings, http trait).
#![tactic(auto)]

mod conflict;
mod error;
pub mod laws;
mod node;
mod path;
mod query;
mod routable;
mod route;
mod routes;
mod search;
mod segment;
mod table;
mod template;
mod template_route;
mod tree;

pub use error::RouteError;
pub use routes::Routes;
