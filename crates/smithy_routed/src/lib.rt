// Which routes a request is matched by that was placed: laws alone (Smithy, HTTP protocol bindings, http trait).
#![tactic(auto)]

pub mod laws;
