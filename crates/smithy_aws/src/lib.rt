// AWS's JSON protocols above the binding traits: what stands beside the body of their messages, and what they ask of a value.
#![tactic(auto)]

mod added_headers;
mod aws_json;
mod body_value;
mod error_codes;
mod error_shapes;
mod following;
pub mod laws;
mod payload;
mod ready;
mod response_shape;
mod rest_json1_input;
mod sending;

pub use aws_json::{AwsJson, AwsJsonVersion};
pub use body_value::{aws_json_value, aws_json_value_with};
pub use error_codes::error_code;
pub use error_shapes::response_error;
pub use ready::ReadyInput;
pub use response_shape::RestJson1Shape;
pub use rest_json1_input::RestJson1Input;
