// The shapes that are reached from some.
ghost use Rattle.std.specs.Prelude.{◌≡◌, ◌++◌, ◌∷◌, [], false, map, IfOk, OnOk, Some};
ghost use Rattle.smithy_model.specs.Reached.{is_among, with_name, with_names, reached};
ghost use Rattle.smithy_model.specs.Floats.{decimal_shape, with_floats};
ghost use Rattle.smithy_model.specs.Models.{with_http};
ghost use Rattle.smithy_model.specs.Reads.{Reads};
ghost use Rattle.smithy_model.specs.views.ModelView.{shape_view, shapes_view};
ghost use Rattle.smithy_model.specs.views.NameView.{texts, ArePositions};
ghost use Rattle.smithy_model.specs.views.ReachedView.{shapes_of, and_targets, IsWhole};

use crate::error::JobError;
use crate::floats::{Floats, decimal_kind};
use crate::model_shapes::ModelShapes;
use crate::prelude::PRELUDE_SHAPES;
use crate::shape::{Member, Shape};
use crate::shapes::shape_at;
use crate::spots::index_behind;
use smithy_ids::HttpTrait;
use std::alloc::{AllocError, Global};
use std::collections::BTreeMap;

/// Shapes, with the position of each among them by its name.
#[derive(Drop)]
pub struct Reached<'v, 't> {
    pub shapes: Vec<Shape<'v, 't>>,
    pub positions: BTreeMap<&'t str, usize>,
}

// Adds a name that isn't there, with its position.
fn add<'t>(
    names: &mut Vec<&'t str>,
    positions: &mut BTreeMap<&'t str, usize>,
    name: &'t str,
) -> Result<(), AllocError>
    requires positions { ArePositions positions.old (texts names.old.items) }
    requires absent { is_among (texts names.old.items) name.now ≡ false }
    ensures names { OnOk result (texts names.new.items ≡ texts names.old.items ++ name.now ∷ []) }
    ensures positions { OnOk result (ArePositions positions.new (texts names.new.items)) }
{
    let position = names.as_slice().len();
    names.push(name)?;
    positions.insert(name, position)?;
    Ok(())
}

// Adds a name where it isn't there yet, with its position.
fn meet<'t>(
    names: &mut Vec<&'t str>,
    positions: &mut BTreeMap<&'t str, usize>,
    name: &'t str,
) -> Result<(), AllocError>
    requires { ArePositions positions.old (texts names.old.items) }
    ensures names { OnOk result (texts names.new.items ≡ with_name (texts names.old.items) name.now) }
    ensures positions { OnOk result (ArePositions positions.new (texts names.new.items)) }
{
    match positions.get(name) {
        Some(_) => Ok(()),
        None => add(names, positions, name),
    }
}

/// Adds the names of the targets of these members that aren't there yet, with their positions. Takes memory.
pub fn meet_targets<'t>(
    names: &mut Vec<&'t str>,
    positions: &mut BTreeMap<&'t str, usize>,
    members: &[Member<'_, 't>],
) -> Result<(), AllocError>
    requires { ArePositions positions.old (texts names.old.items) }
    ensures names { OnOk result (texts names.new.items ≡ and_targets names.old.items members.now) }
    ensures positions { OnOk result (ArePositions positions.new (texts names.new.items)) }
{
    for member in members {
        meet(names, positions, member.target)?;
    }
    Ok(())
}

/// Adds those of these names that aren't there yet, with their positions. Takes memory.
pub fn meet_names<'t>(
    names: &mut Vec<&'t str>,
    positions: &mut BTreeMap<&'t str, usize>,
    more: &[&'t str],
) -> Result<(), AllocError>
    requires { ArePositions positions.old (texts names.old.items) }
    ensures names { OnOk result (texts names.new.items ≡ with_names (texts names.old.items) (texts more.now)) }
    ensures positions { OnOk result (ArePositions positions.new (texts names.new.items)) }
{
    for name in more {
        meet(names, positions, *name)?;
    }
    Ok(())
}

/// The shapes of a model and of the prelude that are reached from these names, in the order in which they are met.
/// It looks at each shape once. Takes memory.
///
/// No job where a name has no shape, or one that hasn't its form (Smithy, JSON AST).
pub fn shapes_from<'v, 't>(
    alloc: Global,
    shapes: &ModelShapes<'v, 't>,
    roots: &[&'t str],
) -> Result<Reached<'v, 't>, JobError>
    ensures shapes { Reads shapes_of (reached (shapes_view shapes.now) (texts roots.now)) result }
    ensures whole { IfOk result IsWhole }
{
    let mut found = Vec::new(alloc);
    let mut names = Vec::new(alloc);
    let mut positions = BTreeMap::new(alloc);
    meet_names(&mut names, &mut positions, roots)?;
    // So many shapes can be met.
    let mut rest = index_behind(shapes.members.len(), PRELUDE_SHAPES)?;
    'walk: while let Some(name) = names.as_slice().get(found.as_slice().len()) {
        let shape = shape_at(alloc, shapes, name)?;
        meet_targets(&mut names, &mut positions, shape.members.as_slice())?;
        found.push(shape)?;
        if rest == 0 {
            return Err(JobError::NoJob);
        }
        rest -= 1;
    }
    Ok(Reached {
        shapes: found,
        positions,
    })
}

// Gives the first shape this `@http`.
fn set_http<'t>(shapes: &mut [Shape<'_, 't>], http: HttpTrait<'t>)
    ensures { map shape_view shapes.new ≡ with_http (Some http.entry) (map shape_view shapes.old) }
{
    if let [first, ..] = shapes {
        first.traits.plain.http = Some(http);
    }
}

/// The same shapes, the first with an operation's `@http` where it has one. Takes no memory.
pub fn with_http<'v, 't>(reached: Reached<'v, 't>, http: Option<HttpTrait<'t>>) -> Reached<'v, 't>
    requires { IsWhole reached }
    ensures shapes { shapes_of result ≡ with_http http.entry (shapes_of reached.entry) }
    ensures whole { IsWhole result }
{
    let Reached {
        mut shapes,
        positions,
    } = reached;
    if let Some(http) = http {
        set_http(shapes.as_mut_slice(), http);
    }
    Reached { shapes, positions }
}

// Gives those of the shapes that are floats the kind of decimals.
fn set_decimals(shapes: &mut [Shape<'_, '_>])
    ensures { map shape_view shapes.new ≡ map decimal_shape (map shape_view shapes.old) }
{
    for shape in shapes.iter_mut() {
        shape.kind = decimal_kind(shape.kind);
    }
}

// These shapes, those that are floats with the kind of decimals.
fn as_decimals<'v, 't>(mut shapes: Vec<Shape<'v, 't>>) -> Vec<Shape<'v, 't>>
    ensures { map shape_view result.items ≡ map decimal_shape (map shape_view shapes.entry.items) }
{
    set_decimals(shapes.as_mut_slice());
    shapes
}

/// The same shapes, with their floats as they are or as decimals. Takes no memory.
pub fn with_floats<'v, 't>(reached: Reached<'v, 't>, floats: Floats) -> Reached<'v, 't>
    requires { IsWhole reached }
    ensures shapes { shapes_of result ≡ with_floats floats (shapes_of reached.entry) }
    ensures whole { IsWhole result }
{
    match floats {
        Floats::Kept => reached,
        Floats::Decimals => {
            let Reached { shapes, positions } = reached;
            Reached {
                shapes: as_decimals(shapes),
                positions,
            }
        }
    }
}
