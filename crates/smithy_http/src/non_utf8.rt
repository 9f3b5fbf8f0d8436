// Header values that are not UTF-8.

/// What a reader of a response does with a header member whose value is not UTF-8.
#[derive(Clone, Copy, Debug, Default, PartialEq, Eq)]
pub enum NonUtf8HeaderHandling {
    /// It refuses the member.
    #[default]
    Reject,
    /// It leaves the member out where it would be refused.
    Skip,
}
