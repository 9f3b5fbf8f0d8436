// Where a member of a request stands (Smithy, HTTP protocol bindings).
ghost use Rattle.std.specs.Prelude.{◌≡◌};
ghost use Rattle.smithy_schema.specs.Nodes.{binding_of};
ghost use Rattle.smithy_schema.specs.views.References.{schema_of};
ghost use Rattle.smithy_schema.specs.views.StoredTraits.{traits_stored};
ghost use Rattle.smithy_schema.specs.views.ShownBindings.{binding_by, binding_of_all, binding_of_marks, binding_shown};

use crate::parts::Marks;
use crate::schema_ref::SchemaRef;
use crate::stored_traits::{AllHeld, HeldTraits, StoredTraits};

/// Where a member of a request stands, with the name or prefix of its trait.
#[derive(Clone, Copy, Drop)]
pub enum Binding<'t> {
    Header(&'t str),
    Prefix(&'t str),
    Query(&'t str),
    QueryMap,
    Label,
    Payload,
    Body,
}

// Where a member stands that no name or prefix binds.
fn bound_by_marks<'t>(marks: &Marks) -> Binding<'t>
    ensures { binding_shown result ≡ binding_of_marks marks.now }
{
    if marks.http_query_params {
        return Binding::QueryMap;
    }
    if marks.http_label {
        return Binding::Label;
    }
    if marks.http_payload {
        return Binding::Payload;
    }
    Binding::Body
}

// Where a member stands that may have several names.
fn bound_by_all<'t>(all: &'t AllHeld, marks: &Marks) -> Binding<'t>
    ensures { binding_shown result ≡ binding_of_all all.now marks.now }
{
    if let Some(name) = &all.http_header {
        return Binding::Header(name.as_str());
    }
    if let Some(prefix) = &all.http_prefix_headers {
        return Binding::Prefix(prefix.as_str());
    }
    if let Some(name) = &all.http_query {
        return Binding::Query(name.as_str());
    }
    bound_by_marks(marks)
}

// Where a member with these traits stands.
fn bound_by<'t>(traits: &'t StoredTraits) -> Binding<'t>
    ensures { binding_shown result ≡ binding_by (traits_stored traits.now) }
{
    match &traits.held {
        HeldTraits::Nothing => bound_by_marks(&traits.marks),
        HeldTraits::Header(name) => Binding::Header(name.as_str()),
        HeldTraits::Query(name) => Binding::Query(name.as_str()),
        HeldTraits::All(all) => bound_by_all(all, &traits.marks),
    }
}

impl<'t> SchemaRef<'t> {
    /// Where the member stands in a request: the first of its traits that says it. Takes no memory.
    pub fn request_binding(&self) -> Binding<'t>
        ensures { binding_shown result ≡ binding_of (schema_of self.now) }
    {
        match self.traits_kept() {
            Some(traits) => bound_by(traits),
            None => Binding::Body,
        }
    }
}
