// Whether a template is clear for the labels of a schema.
ghost use Rattle.std.specs.Prelude.{◌≡◌, IsTrue, IfOk};
ghost use Rattle.smithy_binding.specs.Words.{schema_of};
ghost use Rattle.smithy_binding.specs.Checked.{checked_input};
ghost use Rattle.smithy_binding.specs.views.Checking.{shown, is_clear_among};
ghost use Rattle.smithy_binding.specs.Typed.{has_clear_template};

use crate::clear::is_clear;
use crate::members::{Counted, count, named_members};
use crate::name_check::{NameKind, names_of};
use crate::place::uri_template;
use crate::uri_template::UriTemplate;
use smithy_schema::SchemaRef;
use smithy_types::OutOfMemory;
use std::alloc::{AllocError, Global};

/// Whether the template is clear for the labels among these members. Takes memory.
pub fn is_clear_among<'t>(
    alloc: Global,
    template: UriTemplate<'t>,
    members: &[SchemaRef<'t>],
) -> Result<bool, AllocError>
    ensures { IfOk result
        (λ b. b ≡ is_clear_among template.entry.text.now (shown members.now)) }
{
    let labels = names_of(alloc, members, NameKind::Label)?;
    let count = count(members, Counted::Label);
    is_clear(alloc, template, labels.as_slice(), count)
}

/// Whether the template leaves no doubt which text a hole has: that of `@http` does not, by the check of the schema;
/// without it the endpoint, or `/`, is asked. Condition: `checked_input` holds of the schema. Takes memory.
pub fn has_clear_template(
    alloc: Global,
    schema: SchemaRef<'_>,
    endpoint: &str,
) -> Result<bool, OutOfMemory>
    requires { IsTrue (checked_input (schema_of schema)) }
    ensures { IfOk result (λ b. b ≡ has_clear_template (schema_of schema.entry) endpoint.now) }
{
    if schema.http().is_some() {
        return Ok(true);
    }
    let Some(members) = named_members(alloc, schema)? else {
        unreachable!()
    };
    let template = uri_template(schema, endpoint);
    Ok(is_clear_among(alloc, template, members.as_slice())?)
}
