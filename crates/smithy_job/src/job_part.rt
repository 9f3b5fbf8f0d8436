// The parts of jobs.
ghost use Rattle.std.specs.Prelude.{◌≡◌};
ghost use Rattle.smithy_job.specs.WrongJobs.{parts_of};

use crate::job_kind::JobKind;

/// A part of a job that has a form of its own.
#[derive(Clone, Copy, Debug, PartialEq, Eq, Drop)]
pub enum JobPart {
    /// The job as a whole.
    Object,
    Model,
    /// A model that is there, whatever its form.
    AnyModel,
    Operation,
    Input,
    /// Many inputs.
    Inputs,
    Output,
    Status,
    Endpoint,
    Omit,
    Response,
    /// Many responses.
    Responses,
    Error,
    Code,
    ServiceErrors,
    Policy,
    Request,
    Operations,
    To,
    RpcEndpoint,
    /// The shapes that an operation's input reaches.
    InputShapes,
    /// The shapes that an operation's output reaches.
    OutputShapes,
    /// The shapes that a response's output or errors reach.
    ExpectedShapes,
    /// The code of an operation, where a job has no status.
    OperationCode,
}

static INPUT: [JobPart; 7] = [
    JobPart::Object,
    JobPart::Model,
    JobPart::Operation,
    JobPart::Input,
    JobPart::Endpoint,
    JobPart::Omit,
    JobPart::InputShapes,
];

static INPUTS: [JobPart; 7] = [
    JobPart::Object,
    JobPart::Model,
    JobPart::Operation,
    JobPart::Inputs,
    JobPart::Endpoint,
    JobPart::Omit,
    JobPart::InputShapes,
];

static RESPONSE: [JobPart; 9] = [
    JobPart::Object,
    JobPart::Model,
    JobPart::Operation,
    JobPart::Response,
    JobPart::Error,
    JobPart::Code,
    JobPart::ServiceErrors,
    JobPart::Policy,
    JobPart::ExpectedShapes,
];

static RESPONSES: [JobPart; 3] = [JobPart::Object, JobPart::Model, JobPart::Responses];

static RECOVER: [JobPart; 7] = [
    JobPart::Object,
    JobPart::Model,
    JobPart::Operation,
    JobPart::Endpoint,
    JobPart::Omit,
    JobPart::Request,
    JobPart::InputShapes,
];

static ROUTE: [JobPart; 5] = [
    JobPart::Object,
    JobPart::AnyModel,
    JobPart::Omit,
    JobPart::Request,
    JobPart::Operations,
];

static GATEWAY: [JobPart; 9] = [
    JobPart::Object,
    JobPart::Model,
    JobPart::Operation,
    JobPart::Endpoint,
    JobPart::Omit,
    JobPart::Request,
    JobPart::To,
    JobPart::RpcEndpoint,
    JobPart::InputShapes,
];

static ANSWER: [JobPart; 7] = [
    JobPart::Object,
    JobPart::Model,
    JobPart::Operation,
    JobPart::Output,
    JobPart::Status,
    JobPart::OutputShapes,
    JobPart::OperationCode,
];

/// The parts of a command's job, in the order in which they are read.
#[tactic(auto, unfolding(crate::specs::WrongJobs::parts_of))]
pub fn parts_of(kind: JobKind) -> &'static [JobPart]
    ensures { result.now ≡ parts_of kind }
{
    match kind {
        JobKind::Request | JobKind::Rpc => &INPUT,
        JobKind::Requests => &INPUTS,
        JobKind::Response => &RESPONSE,
        JobKind::Responses => &RESPONSES,
        JobKind::Recover => &RECOVER,
        JobKind::Route => &ROUTE,
        JobKind::Gateway => &GATEWAY,
        JobKind::Answer => &ANSWER,
    }
}
