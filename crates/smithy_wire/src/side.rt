// The two messages of an operation.

/// Whose body is read or written: a request's or a response's.
#[derive(Clone, Copy, Debug, PartialEq, Eq)]
pub enum Side {
    Request,
    Response,
}
