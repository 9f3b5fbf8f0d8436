// How the floats of a model are read.
ghost use Rattle.std.specs.Prelude.{◌≡◌};
ghost use Rattle.smithy_model.specs.Floats.{decimal_kind};

use smithy_ids::ShapeType;

/// How the shapes of a model that are floats are read, be they a model's own or the prelude's (Smithy, float and double).
#[derive(Clone, Copy, Debug, PartialEq, Eq, Drop)]
pub enum Floats {
    /// As they are.
    Kept,
    /// As decimals: in place of Float and Double they have the kind BigDecimal.
    Decimals,
}

/// The kind of a shape where floats are read as decimals. Takes no memory.
pub fn decimal_kind(kind: ShapeType) -> ShapeType
    ensures { result ≡ decimal_kind kind }
{
    match kind {
        ShapeType::Float | ShapeType::Double => ShapeType::BigDecimal,
        _ => kind,
    }
}
