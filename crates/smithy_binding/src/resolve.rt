// Which member a write is for.
ghost use Rattle.std.specs.Prelude.{◌≡◌, option_map, IfSome};
ghost use Rattle.smithy_binding.specs.Words.{position_of_name};
ghost use Rattle.smithy_binding.specs.views.Directed.{directed_of};
ghost use Rattle.smithy_binding.specs.views.NamesAtHand.{IsMemberAt};
ghost use Rattle.smithy_binding.specs.views.Resolving.{found_at, found_of, Finds};

use crate::binding::member_at;
use crate::direction::DirectedSchema;
use smithy_schema::SchemaRef;

// The member at the position, with it.
#[inline(always)]
fn found_at<'t>(schema: DirectedSchema<'t>, position: usize) -> Option<(usize, DirectedSchema<'t>)>
    ensures found { option_map found_of result ≡ found_at (directed_of schema.entry) position }
    ensures member { IfSome result (λ r. IsMemberAt schema.entry r.0 r.1) }
{
    Some((position, member_at(schema, position)?))
}

// The first position of a member with this name.
fn position_of(schema: DirectedSchema<'_>, name: &str) -> Option<usize>
    ensures { result ≡ position_of_name (directed_of schema.entry) name.now }
{
    schema.schema.position_of(name)
}

/// The member whose index the written node has, or, where it has none, the first member with its name; with its position.
#[inline(always)]
pub fn resolve<'t>(
    schema: DirectedSchema<'t>,
    written: SchemaRef<'_>,
) -> Option<(usize, DirectedSchema<'t>)>
    ensures found { Finds schema.entry written.entry result }
    ensures member { IfSome result (λ r. IsMemberAt schema.entry r.0 r.1) }
{
    match written.member_index() {
        Some(index) => found_at(schema, index),
        None => found_at(schema, position_of(schema, written.member_name()?)?),
    }
}
