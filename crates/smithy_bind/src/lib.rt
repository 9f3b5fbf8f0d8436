// Answers to jobs, from bytes to bytes.
#![tactic(auto)]

mod answering;
mod aws_requested;
mod aws_responded;
mod aws_target;
mod coded;
mod command;
mod ended;
mod explaining;
mod gatewayed;
mod generate;
mod generated_schema;
mod generated_writes;
mod json_value;
pub mod laws;
mod line;
mod over_bytes;
mod recovered;
mod reply;
mod requested;
mod responded;
mod response;
mod routed;
mod sending;
mod served;
mod shown;
mod target;
mod texts;
mod told;
mod top_call;

pub use command::Command;
pub use ended::{Ended, Status};
pub use over_bytes::{answer_bytes, answer_bytes_over};
pub use requested::ReadOperation;
pub use smithy_job::JobKind;
pub use smithy_json::Scratch;
pub use texts::{HELP, VERSION};
pub use top_call::{run, run_request};
