// JSON as AWS's protocols write it by a node of a table.
#![tactic(auto)]

mod columns;
mod exact_numbers;
mod forms;
mod json_names;
mod json_values;
pub mod laws;
mod misfit;
mod names;
mod node_names;
mod parts;
mod reading;
mod side;
mod standing;
mod time_texts;
mod unread;
mod whole_parts;
mod wire_codec;
mod wire_json;
mod wire_serializer;
mod wire_style;
mod writing;

pub use json_names::JsonNames;
pub use json_values::json_in;
pub use misfit::{check_body, check_whole};
pub use names::json_name;
pub use side::Side;
pub use standing::{names_stand, whole_names_stand};
pub use wire_codec::wire_json_is_lawful;
pub use wire_json::WireJson;
pub use wire_serializer::WireSerializer;
pub use wire_style::WireStyle;
