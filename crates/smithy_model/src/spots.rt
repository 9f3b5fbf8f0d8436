// Where shapes stand in a table.
ghost use Rattle.std.specs.Prelude.{◌≡◌, ◌+◌, map, IfOk};
ghost use Rattle.smithy_model.specs.Nodes as defined;
ghost use Rattle.smithy_model.specs.views.ModelView.{shape_view};
ghost use Rattle.smithy_model.specs.views.NameView.{ArePositions};
ghost use Rattle.smithy_model.specs.views.SpotView.{spot_view, names_at};

use crate::shape::Shape;
use smithy_types::OutOfMemory;
use std::alloc::Global;
use std::collections::BTreeMap;

/// Where a shape stands: the index of its node, and that of its first member's.
#[derive(Clone, Copy)]
pub struct Spot<'v, 't, 's> {
    pub index: usize,
    pub first: usize,
    pub shape: &'s Shape<'v, 't>,
}

/// Spots by the names of their shapes.
#[derive(Drop)]
pub struct SpotMap<'v, 't, 's> {
    /// The index of the first shape's node: behind those of all members.
    pub first: usize,
    pub spots: Vec<Spot<'v, 't, 's>>,
    pub positions: &'s BTreeMap<&'t str, usize>,
    ghost located: { ArePositions positions.now (names_at (map spot_view spots.items)) },
}

/// The index so many behind another one. Want of memory where there is no such number: no table is so long.
#[inline(always)]
pub fn index_behind(index: usize, count: usize) -> Result<usize, OutOfMemory>
    ensures { IfOk result (λ p. p ≡ index + count) }
{
    match index.checked_add(count) {
        Some(index) => Ok(index),
        None => Err(OutOfMemory),
    }
}

/// How many members the shapes have.
pub fn member_count(shapes: &[Shape<'_, '_>]) -> Result<usize, OutOfMemory>
    ensures { IfOk result (λ n. n ≡ defined.member_count (map shape_view shapes.now)) }
{
    let mut count: usize = 0;
    for shape in shapes {
        count = index_behind(count, shape.members.len())?;
    }
    Ok(count)
}

/// The spots of shapes whose nodes stand from this index on, behind those of their members. Takes memory.
pub fn spots_from<'v, 't, 's>(
    alloc: Global,
    shapes: &'s [Shape<'v, 't>],
    index: usize,
) -> Result<Vec<Spot<'v, 't, 's>>, OutOfMemory>
    ensures { IfOk result (λ v.
        map spot_view v.items ≡ defined.spots_from 0 index (map shape_view shapes.now)) }
{
    let mut spots = Vec::with_capacity(alloc, shapes.len())?;
    let mut first = 0;
    let mut next = index;
    for shape in shapes {
        spots.push(Spot {
            index: next,
            first,
            shape,
        })?;
        first = index_behind(first, shape.members.len())?;
        next = index_behind(next, 1)?;
    }
    Ok(spots)
}
