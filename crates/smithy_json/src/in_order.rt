// The members of an object in byte order of their names.
ghost use Rattle.std.specs.Prelude.{◌≡◌, ◌↔◌, IfOk, OnOk, IsTrue};
ghost use Rattle.smithy_types.specs.Maps.{IsOrdered};
ghost use Rattle.smithy_json.specs.PutMembers.{place_of};
ghost use Rattle.smithy_json.specs.views.Adding.{all_put, Adds, Puts, BelongsLast};
ghost use Rattle.smithy_json.specs.views.JsonView.{view, members_view, entries};

use crate::value::JsonValue;
use smithy_types::OutOfMemory;
use std::alloc::Global;
use std::cmp::Ordering;
use std::collections::BTreeMap;

// So many members are put in their places while they are read, in whatever order they come.
const FEW_MEMBERS: usize = 16;

// For how many members there is room at first.
const FIRST_MEMBERS: usize = 2;

// Room for the first members, which many objects don't go beyond.
fn make_room(members: &mut Vec<(&str, JsonValue<'_>)>) -> Result<(), OutOfMemory>
    ensures { members.new.items ≡ members.old.items }
{
    if members.is_empty() {
        members.try_reserve_exact(FIRST_MEMBERS)?;
    }
    Ok(())
}

/// Adds a member to those that were read before it, and tells whether they are kept in byte order of their names, each name
/// once. They are as long as they are few, or come in that order; from then on they stand as they come.
pub(crate) fn add_member<'t>(
    members: &mut Vec<(&'t str, JsonValue<'t>)>,
    are_ordered: bool,
    name: &'t str,
    value: JsonValue<'t>,
) -> Result<bool, OutOfMemory>
    requires { IsTrue are_ordered → IsOrdered (entries members.old.items) }
    ensures put { OnOk result (Adds name.now (view value.entry) members.old.items members.new.items) }
    ensures ordered { IfOk result (λ o. IsTrue o → IsOrdered (entries members.new.items)) }
{
    make_room(members)?;
    if are_ordered && belongs_last(members.as_slice(), name) {
        members.push((name, value))?;
        return Ok(true);
    }
    if are_ordered && members.len() < FEW_MEMBERS {
        put_member(members, name, value)?;
        return Ok(true);
    }
    members.push((name, value))?;
    Ok(false)
}

/// The members in byte order of their names. Of those with one name the last value stays.
pub(crate) fn in_order<'t>(
    alloc: Global,
    members: Vec<(&'t str, JsonValue<'t>)>,
    are_ordered: bool,
) -> Result<Vec<(&'t str, JsonValue<'t>)>, OutOfMemory>
    requires { IsTrue are_ordered → IsOrdered (entries members.items) }
    ensures { IfOk result (λ v. members_view v.items ≡ all_put members.entry.items) }
{
    if are_ordered {
        Ok(members)
    } else {
        sorted(alloc, members)
    }
}

/// Whether each name stands before the next in byte order. Takes no memory.
pub fn are_ascending(members: &[(&str, JsonValue<'_>)]) -> bool
    ensures { IsTrue result ↔ IsOrdered (entries members.now) }
{
    let mut before = None;
    'names: for member in members {
        if let Some(name) = before {
            if name >= member.0 {
                return false;
            }
        }
        before = Some(member.0);
    }
    true
}

// Whether a name belongs behind the last member.
fn belongs_last(members: &[(&str, JsonValue<'_>)], name: &str) -> bool
    ensures { IsTrue result → BelongsLast name.now members.now }
{
    match members.last() {
        Some(last) => name > last.0,
        None => true,
    }
}

// Where a name stands among members in byte order, or where it would.
fn place_of(members: &[(&str, JsonValue<'_>)], name: &str) -> Result<usize, usize>
    ensures { result ≡ place_of name.now (entries members.now) }
{
    for (place, member) in members.iter().enumerate() {
        match name.cmp(member.0) {
            Ordering::Less => return Err(place),
            Ordering::Equal => return Ok(place),
            Ordering::Greater => {}
        }
    }
    Err(members.len())
}

// Puts a value at its name, which stands at its place in byte order.
fn put_member<'t>(
    members: &mut Vec<(&'t str, JsonValue<'t>)>,
    name: &'t str,
    value: JsonValue<'t>,
) -> Result<(), OutOfMemory>
    requires { IsOrdered (entries members.old.items) }
    ensures put { OnOk result (Puts name.now (view value.entry) members.old.items members.new.items) }
    ensures ordered { OnOk result (IsOrdered (entries members.new.items)) }
{
    match place_of(members.as_slice(), name) {
        Ok(place) => members[place] = (name, value),
        Err(place) => members.insert(place, (name, value))?,
    }
    Ok(())
}

// Members in any order, in byte order of their names, through a map.
fn sorted<'t>(
    alloc: Global,
    members: Vec<(&'t str, JsonValue<'t>)>,
) -> Result<Vec<(&'t str, JsonValue<'t>)>, OutOfMemory>
    ensures { IfOk result (λ v. members_view v.items ≡ all_put members.entry.items) }
{
    let mut found = BTreeMap::new(alloc);
    'members: for (name, value) in members {
        drop(found.insert(name, value)?);
    }
    listed(alloc, found)
}

// The pairs of a map, in order.
fn listed<'t>(
    alloc: Global,
    entries: BTreeMap<&'t str, JsonValue<'t>>,
) -> Result<Vec<(&'t str, JsonValue<'t>)>, OutOfMemory>
    ensures { IfOk result (λ v. v.items ≡ entries.entry.entries) }
{
    let mut found = Vec::with_capacity(alloc, entries.len())?;
    'entries: for entry in entries {
        found.push(entry)?;
    }
    Ok(found)
}
