// The commands that read jobs.

/// A command that reads a job.
#[derive(Clone, Copy, Debug, PartialEq, Eq, Drop)]
pub enum JobKind {
    /// The request of an input, by the bindings of its schema.
    Request,
    /// The requests of many inputs of one operation.
    Requests,
    /// The call of an input, posted whole.
    Rpc,
    /// The value of a response.
    Response,
    /// The values of many responses of one model.
    Responses,
    /// The input of a request.
    Recover,
    /// The operation of a request, among many.
    Route,
    /// A request that is sent on.
    Gateway,
    /// The response of an output.
    Answer,
}
