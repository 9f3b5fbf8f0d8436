//! A second lawful codec, and the worked rows of the definitions: theorems by computation, in `proofs`.
#![tactic(auto)]

mod spaced_json;

pub use spaced_json::{SpacedJson, SpacedSerializer, spaced_is_lawful};
