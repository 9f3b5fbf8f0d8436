// What a response that was written is read as: laws alone (Smithy, HTTP protocol bindings).
#![tactic(auto)]

pub mod laws;
