// How deep a document is nested.
ghost use Rattle.std.specs.Prelude.{◌≡◌, nat_le};
ghost use Rattle.smithy_types.specs.Documents.{nesting, items_nesting, members_nesting};
ghost use Rattle.smithy_types.specs.DocumentView.{view, items_view, members_view};

use smithy_types::{Document, Documents, Members};

/// Whether the arrays and objects of a document are nested at most so many levels deep. Takes no memory.
#[cycle(shallow_document)]
pub fn is_shallow_document(document: &Document, levels: usize) -> bool
    ensures { result ≡ nat_le (nesting (view document.now)) levels }
{
    match document {
        Document::Array(items) => levels > 0 && are_shallow_items(items, levels - 1),
        Document::Object(members) => levels > 0 && are_shallow_members(members, levels - 1),
        _ => true,
    }
}

#[cycle(shallow_document)]
fn are_shallow_items(documents: &Documents, levels: usize) -> bool
    ensures { result ≡ nat_le (items_nesting (items_view documents.now)) levels }
{
    let items = documents.as_slice();
    'items: for item in items {
        if !is_shallow_document(item, levels) {
            return false;
        }
    }
    true
}

#[cycle(shallow_document)]
fn are_shallow_members(members: &Members, levels: usize) -> bool
    ensures { result ≡ nat_le (members_nesting (members_view members.now)) levels }
{
    'members: for (_, member) in members.iter() {
        if !is_shallow_document(member, levels) {
            return false;
        }
    }
    true
}
