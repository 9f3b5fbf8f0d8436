// The groups by which documents open.
ghost use Rattle.std.specs.Prelude.{◌≡◌};
ghost use Rattle.smithy_document.specs.Words.{view};
ghost use Rattle.smithy_document.specs.OpenDocuments.{opens_as, kind_of_group};

use smithy_ids::ShapeType;
use smithy_serde::Group;
use smithy_types::Document;

/// The kind that is asked for by opening a group.
pub(crate) fn kind_of(group: Group) -> ShapeType
    ensures { result ≡ kind_of_group group }
{
    match group {
        Group::List => ShapeType::List,
        Group::Map => ShapeType::Map,
        Group::Structure => ShapeType::Structure,
    }
}

/// Whether the document opens so: an array as a list, an object as a map or a structure.
pub(crate) fn opens_as(group: Group, document: &Document) -> bool
    ensures { result ≡ opens_as group (view document.now) }
{
    match document {
        Document::Array(_) => matches!(group, Group::List),
        Document::Object(_) => matches!(group, Group::Map | Group::Structure),
        _ => false,
    }
}
