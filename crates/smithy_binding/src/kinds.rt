// Which values a member takes.
ghost use Rattle.std.specs.Prelude.{◌≡◌};
ghost use Rattle.smithy_binding.specs.Words.{Table, fits_member, value_in};
ghost use Rattle.smithy_binding.specs.views.Directed.{directed_of};

use crate::binding::is_bound;
use crate::direction::DirectedSchema;
use smithy_serde::ShapeValue;

/// Whether the value may be written to the member: one of its kind, or a null to an unbound one.
#[inline(always)]
pub fn fits_member(member: DirectedSchema<'_>, value: &ShapeValue) -> bool
    ensures { (t : Table) → result ≡ fits_member (directed_of member.entry) (value_in t value.now) }
{
    match value.written_kind() {
        Some(_kind) => value.fits(member.schema.shape_type()),
        None => !is_bound(member),
    }
}
