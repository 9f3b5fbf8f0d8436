// The numbers of documents.
ghost use Rattle.std.specs.Prelude.{◌≡◌};
ghost use Rattle.smithy_types.specs.Documents.{number_of};

/// A whole number. In a canonical document a `NegInt` is negative.
#[derive(Clone, Copy, Debug, PartialEq, Eq)]
pub enum Number {
    PosInt(u64),
    NegInt(i64),
}

impl Number {
    ghost use Rattle.smithy_types.specs.views.DocumentView.{number_view};

    /// The number, as `PosInt` where it is not negative.
    pub fn from_i64(value: i64) -> Number
        ensures { number_view result ≡ number_of value }
    {
        if value < 0 {
            Number::NegInt(value)
        } else {
            Number::PosInt(value as u64)
        }
    }
}
