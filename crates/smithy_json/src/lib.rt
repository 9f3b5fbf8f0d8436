// Values of JSON, and the documents that they are.
#![tactic(auto)]

mod documents;
mod ending;
mod error;
mod in_order;
mod numbers;
mod places;
mod reading;
mod value;

pub use documents::{document_of, read_document, whole_number};
pub use ending::json_end;
pub use error::JsonError;
pub use in_order::are_ascending;
pub use json::Scratch;
pub use reading::read_json;
pub use value::{JsonValue, value_named};
