// The first wrong place of the shapes that are reached from some.
ghost use Rattle.std.specs.Prelude.{◌≡◌, IfOk, OnOk};
ghost use Rattle.smithy_model.specs.Wrong.{first_in};
ghost use Rattle.smithy_model.specs.WrongModels.{names_reached, wrong_at, wrong_reached};
ghost use Rattle.smithy_model.specs.views.ModelView.{shapes_view};
ghost use Rattle.smithy_model.specs.views.NameView.{texts, ArePositions};
ghost use Rattle.smithy_model.specs.views.WrongView.{Finds, and_shape};

use crate::error::JobError;
use crate::model_shapes::ModelShapes;
use crate::prelude::PRELUDE_SHAPES;
use crate::reached::{meet_names, meet_targets};
use crate::shapes::{found_at, shape_at};
use crate::spots::index_behind;
use crate::wrong::{Wrong, in_key};
use crate::wrong_shapes::wrong_shape;
use smithy_types::OutOfMemory;
use std::alloc::Global;
use std::collections::BTreeMap;

// Adds the names of the targets of the shape of this name, none where it hasn't its form.
fn meet_shape<'t>(
    alloc: Global,
    shapes: &ModelShapes<'_, 't>,
    names: &mut Vec<&'t str>,
    positions: &mut BTreeMap<&'t str, usize>,
    name: &'t str,
) -> Result<(), OutOfMemory>
    requires { ArePositions positions.old (texts names.old.items) }
    ensures names { OnOk result (texts names.new.items ≡ and_shape shapes.now names.old.items name.now) }
    ensures positions { OnOk result (ArePositions positions.new (texts names.new.items)) }
{
    match shape_at(alloc, shapes, name) {
        Ok(shape) => meet_targets(names, positions, shape.members.as_slice()),
        Err(JobError::NoJob) => Ok(()),
        Err(JobError::OutOfMemory) => Err(OutOfMemory),
    }
}

// The names that are reached from these, in the order in which they are met.
#[tactic(auto, unfolding(crate::specs::WrongModels::names_reached))]
fn names_reached<'t>(
    alloc: Global,
    shapes: &ModelShapes<'_, 't>,
    roots: &[&'t str],
) -> Result<Vec<&'t str>, OutOfMemory>
    ensures { IfOk result (λ v. texts v.items ≡ names_reached (shapes_view shapes.now) (texts roots.now)) }
{
    let mut names = Vec::new(alloc);
    let mut positions = BTreeMap::new(alloc);
    meet_names(&mut names, &mut positions, roots)?;
    // So many shapes can be met, and one step finds nothing left.
    let count = index_behind(shapes.members.len(), PRELUDE_SHAPES)?;
    let steps = index_behind(count, 1)?;
    for step in 0..steps {
        let Some(name) = names.as_slice().get(step) else {
            return Ok(names);
        };
        let name = *name;
        meet_shape(alloc, shapes, &mut names, &mut positions, name)?;
    }
    Ok(names)
}

#[tactic(auto, unfolding(crate::specs::WrongModels::wrong_at))]
fn wrong_at(
    alloc: Global,
    shapes: &ModelShapes<'_, '_>,
    name: &str,
) -> Result<Option<Wrong>, OutOfMemory>
    ensures { Finds (wrong_at (shapes_view shapes.now) name.now) result }
{
    match found_at(shapes, name) {
        Some(shape) => in_key(alloc, name, wrong_shape(alloc, shapes, shape)?),
        None => Ok(None),
    }
}

fn wrong_among(
    alloc: Global,
    shapes: &ModelShapes<'_, '_>,
    names: &[&str],
) -> Result<Option<Wrong>, OutOfMemory>
    ensures { Finds (first_in (wrong_at (shapes_view shapes.now)) (texts names.now)) result }
{
    for name in names {
        if let Some(wrong) = wrong_at(alloc, shapes, *name)? {
            return Ok(Some(wrong));
        }
    }
    Ok(None)
}

/// The first wrong place of the shapes that are reached from these names, in the order in which they are met. It looks at each
/// shape once. Takes memory.
#[tactic(auto, unfolding(crate::specs::WrongModels::wrong_reached))]
pub fn wrong_reached<'t>(
    alloc: Global,
    shapes: &ModelShapes<'_, 't>,
    roots: &[&'t str],
) -> Result<Option<Wrong>, OutOfMemory>
    ensures { Finds (wrong_reached (shapes_view shapes.now) (texts roots.now)) result }
{
    let names = names_reached(alloc, shapes, roots)?;
    wrong_among(alloc, shapes, names.as_slice())
}
