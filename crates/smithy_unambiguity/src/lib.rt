//! What a request tells of its input.
#![tactic(auto)]

pub mod laws;
