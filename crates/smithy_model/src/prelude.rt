// The shapes that every model has.
ghost use Rattle.std.specs.Prelude.{◌≡◌};
ghost use Rattle.smithy_model.specs.Prelude.{prelude_kind};
ghost use Rattle.smithy_model.specs.Shapes.{prelude_shape};
ghost use Rattle.smithy_model.specs.views.ModelView.{shape_view};

use crate::shape::Shape;
use crate::traits::no_traits;
use smithy_ids::ShapeType;
use std::alloc::Global;

/// How many shapes the prelude has.
pub const PRELUDE_SHAPES: usize = 21;

/// The kind of the prelude's shape of this name (Smithy, prelude model). Takes no memory.
#[tactic(auto, unfolding(crate::specs::Prelude::prelude_kind))]
pub fn prelude_kind(name: &str) -> Option<ShapeType>
    ensures { result ≡ prelude_kind name.now }
{
    match name {
        "smithy.api#Document" => Some(ShapeType::Document),
        "smithy.api#String" => Some(ShapeType::String),
        "smithy.api#Boolean" | "smithy.api#PrimitiveBoolean" => Some(ShapeType::Boolean),
        "smithy.api#Byte" | "smithy.api#PrimitiveByte" => Some(ShapeType::Byte),
        "smithy.api#Short" | "smithy.api#PrimitiveShort" => Some(ShapeType::Short),
        "smithy.api#Integer" | "smithy.api#PrimitiveInteger" => Some(ShapeType::Integer),
        "smithy.api#Long" | "smithy.api#PrimitiveLong" => Some(ShapeType::Long),
        "smithy.api#Float" | "smithy.api#PrimitiveFloat" => Some(ShapeType::Float),
        "smithy.api#Double" | "smithy.api#PrimitiveDouble" => Some(ShapeType::Double),
        "smithy.api#BigInteger" => Some(ShapeType::BigInteger),
        "smithy.api#BigDecimal" => Some(ShapeType::BigDecimal),
        "smithy.api#Blob" => Some(ShapeType::Blob),
        "smithy.api#Timestamp" => Some(ShapeType::Timestamp),
        "smithy.api#Unit" => Some(ShapeType::Structure),
        _ => None,
    }
}

/// A shape of the prelude: it has no traits and no members. Takes no memory.
pub fn prelude_shape<'v, 't>(alloc: Global, name: &'t str, kind: ShapeType) -> Shape<'v, 't>
    ensures { shape_view result ≡ prelude_shape name.now kind }
{
    Shape {
        name,
        kind,
        traits: no_traits(),
        members: Vec::new(alloc),
    }
}
