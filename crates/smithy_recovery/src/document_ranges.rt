// The numbers, texts and names of documents.
ghost use Rattle.std.specs.Prelude.{◌≡◌};
ghost use Rattle.std.specs.Str.{is_utf8};
ghost use Rattle.smithy_types.specs.DocumentView.{view, number_view, items_view, members_view};
ghost use Rattle.smithy_serde.specs.Ranges.{is_number_in_range, is_document_in_range, are_items_in_range, are_members_in_range};

use smithy_types::{Document, Documents, Members, Number};

/// Whether a text is UTF-8, as each is.
pub fn is_text(text: &str) -> bool
    ensures { result ≡ is_utf8 text.now }
{
    true
}

// Whether a number is within 64 bits, as each is.
fn is_number_in_range(number: Number) -> bool
    ensures { result ≡ is_number_in_range (number_view number) }
{
    match number {
        Number::PosInt(_value) => true,
        Number::NegInt(_value) => true,
    }
}

/// Whether each number of a document is within 64 bits, each text is UTF-8 and the names of each object ascend, as they
/// do in each document of a program. Takes no memory.
#[cycle(document_in_range)]
pub fn is_document_in_range(document: &Document) -> bool
    ensures { result ≡ is_document_in_range (view document.now) }
{
    match document {
        Document::Number(number) => is_number_in_range(*number),
        Document::String(text) => is_text(text.as_str()),
        Document::Array(items) => are_items_in_range(items),
        Document::Object(members) => are_members_in_range(members),
        _ => true,
    }
}

#[cycle(document_in_range)]
fn are_items_in_range(documents: &Documents) -> bool
    ensures { result ≡ are_items_in_range (items_view documents.now) }
{
    let items = documents.as_slice();
    'items: for item in items {
        if !is_document_in_range(item) {
            return false;
        }
    }
    true
}

#[cycle(document_in_range)]
fn are_members_in_range(members: &Members) -> bool
    ensures { result ≡ are_members_in_range (members_view members.now) }
{
    'members: for (name, member) in members.iter() {
        if !is_text(name) {
            return false;
        }
        if !is_document_in_range(member) {
            return false;
        }
    }
    true
}
