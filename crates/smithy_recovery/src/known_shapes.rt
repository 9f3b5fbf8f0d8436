// Shapes whose members were found to have each name once, so that none is looked through again.
ghost use Rattle.std.specs.Prelude.{IsTrue};
ghost use Rattle.smithy_schema.specs.Nodes.{Table};
ghost use Rattle.smithy_schema.specs.References.{schema_of};
ghost use Rattle.smithy_recovery.specs.views.KnownShapes.{has_distinct_members, AreKnown};

use smithy_schema::SchemaRef;
use smithy_types::OutOfMemory;
use std::alloc::Global;
use std::collections::BTreeSet;

/// The places of such shapes.
pub type KnownShapes = BTreeSet<usize>;

/// No shapes. Takes no memory.
pub fn no_shapes(alloc: Global) -> KnownShapes
    ensures { (t : Table) → AreKnown t result }
{
    BTreeSet::new(alloc)
}

/// Whether a shape is one of these.
pub fn is_known(known: &KnownShapes, shape: SchemaRef<'_>) -> bool
    requires { AreKnown (schema_of shape).table known.now }
    ensures { IsTrue result → IsTrue (has_distinct_members (schema_of shape.entry)) }
{
    match shape.index() {
        Some(place) => known.contains(&place.0),
        None => false,
    }
}

/// Keeps a shape whose members have each name once. Takes memory.
pub fn keep(known: &mut KnownShapes, shape: SchemaRef<'_>) -> Result<(), OutOfMemory>
    requires known { AreKnown (schema_of shape).table known.old }
    requires distinct { IsTrue (has_distinct_members (schema_of shape)) }
    ensures { AreKnown (schema_of shape.entry).table known.new }
{
    match shape.index() {
        Some(place) => {
            known.insert(place.0)?;
            Ok(())
        }
        None => Ok(()),
    }
}
