//! Responses of a service: an output, written by its schema (Smithy, HTTP protocol bindings).
#![tactic(auto)]

mod write;

pub use write::write_response;
