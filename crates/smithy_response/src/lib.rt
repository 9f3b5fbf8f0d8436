// Responses: what their status, headers and body hand out.
#![tactic(auto)]

mod bound_positions;
mod composite;
mod counted;
mod header_reads;
pub mod laws;
mod opening;
mod parts;
mod prefixes;
mod protocol_readers;
mod refusals;
mod response_protocol;
mod response_reader;
mod stage;
mod taking;
mod transport;
mod whole_response;

pub use composite::CompositeReader;
pub use response_protocol::ResponseProtocol;
pub use response_reader::{ResponseReader, http_error_deserializer, http_output_deserializer};
pub use smithy_recovery::{RecoverError, recover_request};
pub use whole_response::{read_members, response_value};
