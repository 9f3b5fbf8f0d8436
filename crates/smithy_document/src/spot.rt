// Spots in open containers.
ghost use Rattle.std.specs.Prelude.{◌≡◌, ◌≤◌, ℕ, None, length, option_map, IfOk, IfErr};
ghost use Rattle.smithy_document.specs.Words.{list_of_members, view, items_view, members_view, is_null_document};
ghost use Rattle.std.specs.Map.{keys_of};
ghost use Rattle.smithy_types.specs.Maps.{IsOrdered};
ghost use Rattle.smithy_document.specs.OpenDocuments.{nameless, parts_of};
ghost use Rattle.smithy_document.specs.Sizes.{container_size};
ghost use Rattle.smithy_document.specs.views.Paths.{part_in, position_behind, rest_in, step_in, at_path, last_name};

use smithy_serde::{Group, SerdeError, capped_container_size};
use smithy_types::{Document, Documents, Members, Text};
use std::alloc::Global;

/// An open container, and how many of its parts were handed out. An object keeps the names of its members, by which it
/// is asked.
#[derive(Drop)]
pub(crate) struct Spot {
    pub(crate) form: Group,
    pub(crate) names: Option<Vec<Text>>,
    pub(crate) next: usize,
}

// The names of the members, in byte order.
fn member_names(alloc: Global, members: &Members) -> Result<Vec<Text>, SerdeError>
    ensures all { IfOk result (λ names. names.items ≡ keys_of (list_of_members (members_view members.now))) }
    ensures ordered { IsOrdered (list_of_members (members_view members.now)) }
    ensures memory { IfErr result (λ e. e ≡ SerdeError.OutOfMemory) }
{
    let mut names = Vec::new(alloc);
    'members: for (name, _) in members.iter() {
        names.push(Text::from_str(alloc, name)?)?;
    }
    Ok(names)
}

/// The names of an object's members, in byte order; none of any other document. Takes memory for them.
#[tactic(auto, using(crate::proofs::PathLemmas::all_members, crate::proofs::PathLemmas::no_members_named))]
pub(crate) fn names_of(alloc: Global, document: &Document) -> Result<Option<Vec<Text>>, SerdeError>
    ensures all { IfOk result (λ names. rest_in (view document.now) names 0 ≡ parts_of (view document.now)) }
    ensures memory { IfErr result (λ e. e ≡ SerdeError.OutOfMemory) }
{
    match document.as_object() {
        Some(members) => Ok(Some(member_names(alloc, members)?)),
        None => Ok(None),
    }
}

// The part at a position: an array is asked by the position, an object by the name that stands there.
fn part_at<'d>(
    container: &'d Document,
    names: &Option<Vec<Text>>,
    position: usize,
) -> Option<&'d Document>
    ensures { option_map (λ d. view d.now) result ≡ part_in (view container.now) names.now position }
{
    match names {
        Some(names) => container.as_object()?.get(names.get(position)?.as_str()),
        None => container.as_array()?.get(position),
    }
}

// A position behind all parts.
fn end_of(container: &Document, names: &Option<Vec<Text>>) -> usize
    ensures { (i : ℕ) → result ≤ i → part_in (view container.now) names.now i ≡ None }
{
    match names {
        Some(names) => names.len(),
        None => part_count(container),
    }
}

/// The position behind the next part, if there is one. Takes no memory.
pub(crate) fn position_behind(container: &Document, spot: &Spot) -> Option<usize>
    ensures { result ≡ position_behind (view container.now) spot.now }
{
    if spot.next >= end_of(container, &spot.names) {
        return None;
    }
    match part_at(container, &spot.names, spot.next) {
        Some(_) => Some(spot.next + 1),
        None => None,
    }
}

/// The name of the part that was handed out last, which is empty in an array.
pub(crate) fn name_of(spot: &Spot) -> &str
    ensures { result.now ≡ last_name spot.now }
{
    let Some(names) = &spot.names else {
        return "";
    };
    match names.get(spot.next.saturating_sub(1)) {
        Some(name) => name.as_str(),
        None => "",
    }
}

fn item_count(items: &Documents) -> usize
    ensures { result ≡ length (nameless (items_view items.now)) }
{
    items.len()
}

/// How many parts an array or an object has; other documents have none.
pub(crate) fn part_count(document: &Document) -> usize
    ensures { result ≡ length (parts_of (view document.now)) }
{
    match document {
        Document::Array(items) => item_count(items),
        Document::Object(members) => members.len(),
        Document::Null => 0,
        Document::Bool(_) => 0,
        Document::Number(_) => 0,
        Document::String(_) => 0,
    }
}

// The part that was handed out last, the container itself where none was.
fn last_part<'d>(container: &'d Document, spot: &Spot) -> &'d Document
    ensures { view result.now ≡ step_in (view container.now) spot.now }
{
    if spot.next == 0 {
        return container;
    }
    match part_at(container, &spot.names, spot.next - 1) {
        Some(part) => part,
        None => container,
    }
}

/// The document at the end of a path from the root: in each container the part that was handed out last. Takes no memory.
pub(crate) fn document_at<'d>(root: &'d Document, path: &[Spot]) -> &'d Document
    ensures { view result.now ≡ at_path (view root.now) path.now }
{
    let mut document = root;
    for spot in path {
        document = last_part(document, spot);
    }
    document
}

/// How many parts an array or an object has, and 10,000 where it has more; none of any other document.
pub(crate) fn size_of(document: &Document) -> Option<usize>
    ensures { result ≡ container_size (view document.now) }
{
    match document {
        Document::Array(_) => Some(capped_container_size(part_count(document))),
        Document::Object(_) => Some(capped_container_size(part_count(document))),
        Document::Null => None,
        Document::Bool(_) => None,
        Document::Number(_) => None,
        Document::String(_) => None,
    }
}

/// Whether the document is the null.
pub(crate) fn is_null(document: &Document) -> bool
    ensures { result ≡ is_null_document (view document.now) }
{
    matches!(document, Document::Null)
}
