// How a node is read, by its kind.
ghost use Rattle.std.specs.Prelude.{◌≡◌, Some};
ghost use Rattle.smithy_ids.specs.declared.shape_type.ShapeType.TheVariants as kind;
ghost use Rattle.smithy_schema.specs.Nodes.{at_place, shape};
ghost use Rattle.smithy_schema.specs.References.{schema_of};
ghost use Rattle.smithy_serde.specs.views.ValueBuilding.{IsPlan};
ghost use Rattle.smithy_serde.specs.ValueRead.{StandsAt, IsPlaced};

use crate::read_scalar::ScalarKind;
use smithy_ids::ShapeType;
use smithy_schema::{SchemaIndex, SchemaRef};

// A scalar or a document, a list by its element's node, a map by its key's and its value's, or the members.
pub(crate) enum Plan {
    Scalar(ScalarKind),
    List(SchemaIndex),
    Map(SchemaIndex, SchemaIndex),
    Structure,
}

// The place of a node that stands in its table.
fn own_place(node: SchemaRef<'_>) -> SchemaIndex
    requires { IsPlaced (schema_of node).table (schema_of node) }
    ensures { StandsAt (schema_of node.entry) result.0 }
{
    match node.index() {
        Some(place) => place,
        None => unreachable!(),
    }
}

#[inline(never)]
fn list_plan(schema: SchemaRef<'_>) -> Plan
    ensures { IsPlan kind.List (schema_of schema.entry) result }
{
    match schema.element() {
        Some(element) => Plan::List(own_place(element)),
        None => Plan::Scalar(ScalarKind::Document),
    }
}

#[inline(never)]
fn map_plan(schema: SchemaRef<'_>) -> Plan
    ensures { IsPlan kind.Map (schema_of schema.entry) result }
{
    let Some(key) = schema.key() else {
        return Plan::Scalar(ScalarKind::Document);
    };
    let Some(value) = schema.value() else {
        return Plan::Scalar(ScalarKind::Document);
    };
    Plan::Map(own_place(key), own_place(value))
}

// A list without an element's node, and a map without both, is read as a document, and so is what a program has no values of.
#[inline(always)]
pub(crate) fn plan_of(shape_type: ShapeType, schema: SchemaRef<'_>) -> Plan
    ensures { IsPlan shape_type (schema_of schema.entry) result }
{
    match shape_type {
        ShapeType::Boolean => Plan::Scalar(ScalarKind::Boolean),
        ShapeType::Byte => Plan::Scalar(ScalarKind::Byte),
        ShapeType::Short => Plan::Scalar(ScalarKind::Short),
        ShapeType::Integer => Plan::Scalar(ScalarKind::Integer),
        ShapeType::Long => Plan::Scalar(ScalarKind::Long),
        ShapeType::BigInteger => Plan::Scalar(ScalarKind::BigInteger),
        ShapeType::BigDecimal => Plan::Scalar(ScalarKind::BigDecimal),
        ShapeType::String => Plan::Scalar(ScalarKind::String),
        ShapeType::Blob => Plan::Scalar(ScalarKind::Blob),
        ShapeType::Timestamp => Plan::Scalar(ScalarKind::Timestamp),
        ShapeType::Document => Plan::Scalar(ScalarKind::Document),
        ShapeType::Float => Plan::Scalar(ScalarKind::Document),
        ShapeType::Double => Plan::Scalar(ScalarKind::Document),
        ShapeType::Member => Plan::Scalar(ScalarKind::Document),
        ShapeType::Structure => Plan::Structure,
        ShapeType::Union => Plan::Structure,
        ShapeType::List => list_plan(schema),
        ShapeType::Map => map_plan(schema),
    }
}

// The target's node where there is one, else the node itself.
pub(crate) fn shape_of<'t>(schema: SchemaRef<'t>) -> SchemaRef<'t>
    ensures { schema_of result ≡ shape (schema_of schema.entry) }
{
    match schema.target() {
        Some(target) => target,
        None => schema,
    }
}
