// The table of the shapes that an operation reaches.
ghost use Rattle.std.specs.Prelude.{◌≡◌, [], true, map, IfOk, OnOk};
ghost use Rattle.std.specs.List.{list_all};
ghost use Rattle.smithy_ids.specs.ShapeIds.{has_hash};
ghost use Rattle.smithy_schema.specs.Places.{places_of};
ghost use Rattle.smithy_model.specs.Nodes as defined;
ghost use Rattle.smithy_model.specs.views.ModelView.{shape_view};
ghost use Rattle.smithy_model.specs.views.ReachedView.{shapes_of, IsWhole};
ghost use Rattle.smithy_model.specs.views.NodeView.{spots_of, nodes_of_members, nodes_of_all_members, nodes_of_shapes, table_with, indexes_named, AreSpots, filled, Fills, IsFilledBy};
ghost use Rattle.smithy_model.specs.views.PlacedView.{errors_among, Places, PlacesErrors};
ghost use Rattle.smithy_model.specs.Reads.{Reads};

use crate::error::JobError;
use crate::nodes::{define_member, define_natural, define_shape};
use crate::passed::spot_named;
use crate::reached::Reached;
use crate::shape::{Member, Shape};
use crate::spots::{SpotMap, index_behind, member_count, spots_from};
use smithy_schema::{SchemaIndex, Schemas};
use smithy_types::OutOfMemory;
use std::alloc::Global;

/// A schema of an operation in a table of nodes: the members of all shapes that it reaches, each shape's behind those of the
/// shape before it, then the shapes, an input with the operation's `@http`, then the prelude's document.
#[derive(Drop)]
pub struct ModelTable {
    pub table: Schemas,
    /// The schema's index.
    pub index: SchemaIndex,
    /// The index of the prelude's document behind all shapes, the node of values without a node of their own.
    pub natural: SchemaIndex,
}

/// The errors of an operation and of its service, by their indexes in a table of the shapes that they reach.
#[derive(Drop)]
pub struct PlacedErrors {
    pub table: Schemas,
    pub operation: Vec<SchemaIndex>,
    pub service: Vec<SchemaIndex>,
}

// A table with this many indexes that are only declared.
fn declared(alloc: Global, count: usize) -> Result<Schemas, OutOfMemory>
    ensures { IfOk result (λ t. t ≡ filled [] count) }
{
    let mut table = Schemas::new(alloc);
    for index in 0..count {
        let _ = index;
        if table.declare().is_err() {
            return Err(OutOfMemory);
        }
    }
    Ok(table)
}

// Gives the members of a shape their nodes, the first one at this index. No job where a target isn't there.
fn define_members<'v, 't>(
    alloc: Global,
    table: &mut Schemas,
    spots: &SpotMap<'v, 't, '_>,
    first: usize,
    shape: &str,
    members: &[Member<'v, 't>],
) -> Result<(), JobError>
    requires { has_hash shape.now ≡ true }
    ensures { Fills first table.old table.new (nodes_of_members spots.now shape.now members.now) result }
{
    let mut name = String::new(alloc);
    for (position, member) in members.iter().enumerate() {
        let Some(spot) = spot_named(spots, member.target) else {
            return Err(JobError::NoJob);
        };
        let index = index_behind(first, position)?;
        define_member(
            alloc, table, &mut name, spots, index, shape, position, member, spot,
        )?;
    }
    Ok(())
}

// Gives the members of all shapes their nodes, from the first index on. No job where a target isn't there.
fn define_all_members<'v, 't, 's>(
    alloc: Global,
    table: &mut Schemas,
    spots: &SpotMap<'v, 't, 's>,
    shapes: &'s [Shape<'v, 't>],
) -> Result<(), JobError>
    requires { list_all (λ s. has_hash s.name) (map shape_view shapes.now) ≡ true }
    ensures { Fills 0 table.old table.new (nodes_of_all_members spots.now shapes.now) result }
{
    let mut first = 0;
    for shape in shapes {
        let members = shape.members.as_slice();
        define_members(alloc, table, spots, first, shape.name, members)?;
        first = index_behind(first, members.len())?;
    }
    Ok(())
}

// Gives the shapes their nodes, from this index on.
fn define_shapes<'t>(
    alloc: Global,
    table: &mut Schemas,
    spots: &SpotMap<'_, 't, '_>,
    first: usize,
) -> Result<(), OutOfMemory>
    requires { list_all (λ s. has_hash s.shape.name) (spots_of spots.now) ≡ true }
    ensures { OnOk result (IsFilledBy first (nodes_of_shapes spots.now) table.old table.new) }
{
    for (position, spot) in spots.spots.as_slice().iter().enumerate() {
        let index = index_behind(first, position)?;
        define_shape(alloc, table, spots, index, *spot)?;
    }
    Ok(())
}

// The spots of these shapes.
fn spots_in<'v, 't, 's>(
    alloc: Global,
    reached: &'s Reached<'v, 't>,
) -> Result<SpotMap<'v, 't, 's>, OutOfMemory>
    requires { IsWhole reached.now }
    ensures { IfOk result (λ m. AreSpots m (shapes_of reached.now)) }
{
    let shapes = reached.shapes.as_slice();
    let first = member_count(shapes)?;
    let spots = SpotMap {
        first,
        spots: spots_from(alloc, shapes, first)?,
        positions: &reached.positions,
    };
    Ok(spots)
}

// The table of these shapes, with further indexes that are only declared. No job where a target isn't there.
fn shapes_table<'v, 't, 's>(
    alloc: Global,
    reached: &'s Reached<'v, 't>,
    spots: &SpotMap<'v, 't, 's>,
    further: usize,
) -> Result<Schemas, JobError>
    requires whole { IsWhole reached.now }
    requires spots { AreSpots spots.now (shapes_of reached.now) }
    ensures { Reads (λ t. t) (table_with (shapes_of reached.now) further) result }
{
    let shapes = reached.shapes.as_slice();
    let index = index_behind(spots.first, shapes.len())?;
    let mut table = declared(alloc, index_behind(index, further)?)?;
    define_all_members(alloc, &mut table, spots, shapes)?;
    define_shapes(alloc, &mut table, spots, spots.first)?;
    Ok(table)
}

/// The table of these shapes, with the index of the shape of this name and that of natural values. Takes memory.
///
/// No job where a target, or the shape itself, isn't among the shapes.
#[tactic(auto, unfolding(crate::specs::Nodes::schema_of))]
pub fn table_of(
    alloc: Global,
    reached: &Reached<'_, '_>,
    name: &str,
) -> Result<ModelTable, JobError>
    requires { IsWhole reached.now }
    ensures { Places (defined.schema_of (shapes_of reached.now) name.now) result }
{
    let spots = spots_in(alloc, reached)?;
    let Some(spot) = spot_named(&spots, name) else {
        return Err(JobError::NoJob);
    };
    let mut table = shapes_table(alloc, reached, &spots, 1)?;
    let natural = index_behind(spots.first, reached.shapes.as_slice().len())?;
    define_natural(&mut table, natural)?;
    Ok(ModelTable {
        table,
        index: SchemaIndex(spot.index),
        natural: SchemaIndex(natural),
    })
}

// The indexes of the shapes of these names. No job where one isn't there.
fn indexes_named(
    alloc: Global,
    spots: &SpotMap<'_, '_, '_>,
    names: &[&str],
) -> Result<Vec<SchemaIndex>, JobError>
    ensures { Reads (λ v. places_of v.items) (indexes_named spots.now names.now) result }
{
    let mut indexes = Vec::with_capacity(alloc, names.len())?;
    for name in names {
        let Some(spot) = spot_named(spots, name) else {
            return Err(JobError::NoJob);
        };
        indexes.push(SchemaIndex(spot.index))?;
    }
    Ok(indexes)
}

/// The table of these shapes, with the indexes of the errors of an operation and of its service. Takes memory.
///
/// No job where a target, or an error, isn't among the shapes.
#[tactic(auto, unfolding(crate::specs::Nodes::errors_of))]
pub fn errors_of(
    alloc: Global,
    reached: &Reached<'_, '_>,
    operation: &[&str],
    service: &[&str],
) -> Result<PlacedErrors, JobError>
    requires { IsWhole reached.now }
    ensures { PlacesErrors (errors_among reached.now operation.now service.now) result }
{
    let spots = spots_in(alloc, reached)?;
    let table = shapes_table(alloc, reached, &spots, 0)?;
    let operation = indexes_named(alloc, &spots, operation)?;
    let service = indexes_named(alloc, &spots, service)?;
    Ok(PlacedErrors {
        table,
        operation,
        service,
    })
}
