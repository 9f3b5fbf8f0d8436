// How far a reader of a response has come.

/// How far a reader of a response has come.
#[derive(Clone, Copy, Drop)]
pub enum Stage {
    /// No structure was opened.
    Top,
    /// The bound members are handed out. The body may have been given to one.
    Bound { is_given: bool },
    /// The body is given to a member.
    Payload,
    /// The fields of the body are handed out.
    Body,
}
