// Documents in which each number has one form.
ghost use Rattle.std.specs.Prelude.{◌≡◌};
ghost use Rattle.smithy_types.specs.Documents.{is_canonical, are_canonical_items, are_canonical_members};
ghost use Rattle.smithy_types.specs.views.DocumentView.{view, items_view, members_view};

use crate::document::{Document, Documents, Members};
use crate::number::Number;

impl Document {
    /// Whether each `NegInt` in the document is negative. Takes no memory.
    pub fn is_canonical(&self) -> bool
        ensures { result ≡ is_canonical (view self.now) }
    {
        is_canonical(self)
    }
}

#[cycle(canonical)]
fn is_canonical(document: &Document) -> bool
    ensures { result ≡ is_canonical (view document.now) }
{
    match document {
        Document::Number(Number::NegInt(value)) => *value < 0,
        Document::Array(items) => are_canonical(items),
        Document::Object(members) => have_canonical(members),
        _ => true,
    }
}

#[cycle(canonical)]
fn are_canonical(documents: &Documents) -> bool
    ensures { result ≡ are_canonical_items (items_view documents.now) }
{
    for item in &documents.items {
        if !is_canonical(item) {
            return false;
        }
    }
    true
}

#[cycle(canonical)]
fn have_canonical(members: &Members) -> bool
    ensures { result ≡ are_canonical_members (members_view members.now) }
{
    for (_key, member) in members.entries.iter() {
        if !is_canonical(member) {
            return false;
        }
    }
    true
}
