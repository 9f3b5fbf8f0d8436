// Jobs of the program: what is asked, as JSON.
#![tactic(auto)]

mod answering;
mod aws_call;
mod aws_keys;
mod common;
mod gateway;
mod input;
mod job_kind;
mod job_part;
mod keys;
pub mod laws;
mod named_operations;
mod node;
mod operation;
mod reading;
mod received;
mod recovering;
mod request;
mod response;
mod routing;
mod scalar;
mod settings;
mod value;
mod written;
mod wrong_input;
mod wrong_job;
mod wrong_keys;
mod wrong_message;
mod wrong_reach;
mod wrong_responses;
mod wrong_routing;

pub use answering::{Answering, read_answering};
pub use aws_call::{AwsCall, AwsJsonCall, AwsProtocol, AwsReading};
pub use aws_keys::{aws_call_of, aws_reading_of};
pub use common::{Common, Inputs, inputs_of, read_common, read_whole};
pub use gateway::{Gateway, Sending, read_gateway};
pub use job_kind::JobKind;
pub use keys::{Keys, responses_of};
pub use named_operations::NamedOperations;
pub use operation::Operation;
pub use reading::{Job, read_job, read_job_with_floats};
pub use received::{
    CodedError, Expected, ExpectedIn, Message, Received, read_errors, read_errors_with_floats,
    read_expected, read_expected_with_floats, read_message, read_received, read_received_by,
};
pub use recovering::{Recovering, read_recovering};
pub use routing::{NamedRouting, read_named_routing};
pub use written::Written;
pub use wrong_job::wrong_in_job;
