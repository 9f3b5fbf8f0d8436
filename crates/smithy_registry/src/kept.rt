// The maps of a registry.
ghost use Rattle.std.specs.Prelude.{◌≡◌, true, false, IfOk, OnOk, OnErr, string_bytes};
ghost use Rattle.std.specs.Option.{option_map_or};
ghost use Rattle.smithy_ids.specs.ShapeIds.{has_hash};
ghost use Rattle.smithy_registry.specs.Registries.{shape_name_in};
ghost use Rattle.smithy_registry.specs.views.Kept.{entries_kept, entries_with, kept_name, is_not_above, IsKept, IsToKeep};

use crate::entry::RegistryEntry;
use smithy_ids::ShapeId;
use smithy_serde::ShapeReader;
use smithy_types::OutOfMemory;
use std::alloc::{AllocFailed, Global};
use std::collections::BTreeMap;

// The entries by their full names.
pub(crate) type Entries<R> = BTreeMap<String, RegistryEntry<R>>;

// The least full name of each shape name.
pub(crate) type LeastNames = BTreeMap<String, String>;

// The name of the shape in a full name.
fn shape_name(name: &str) -> &str
    requires { has_hash name.now ≡ true }
    ensures { result.now ≡ shape_name_in name.now }
{
    match ShapeId::parse(name) {
        Some(id) => id.shape_name(),
        None => unreachable!(),
    }
}

// The shape name and the full name as they are to be kept, unless a name that is not above this one is.
fn to_keep(
    alloc: Global,
    names: &LeastNames,
    name: &str,
) -> Result<Option<(String, String)>, OutOfMemory>
    requires { has_hash name.now ≡ true }
    ensures { IfOk result (IsToKeep names.now name.now) }
{
    let shape_name = shape_name(name);
    if is_least(names, shape_name, name) {
        return Ok(None);
    }
    let name = String::from_str(alloc, name)?;
    Ok(Some((String::from_str(alloc, shape_name)?, name)))
}

// Whether the name that is kept for this shape name is not above this one.
fn is_least(names: &LeastNames, shape_name: &str, name: &str) -> bool
    ensures { result ≡ option_map_or (is_not_above name.now) (kept_name names.now shape_name.now) false }
{
    match names.get(shape_name) {
        Some(kept) => kept.as_str().cmp(name).is_le(),
        None => false,
    }
}

// Puts the entry under the name, in place of the one that was there. After a refusal the maps are as before.
pub(crate) fn put<R: ShapeReader + Drop>(
    alloc: Global,
    entries: &mut Entries<R>,
    names: &mut LeastNames,
    name: String,
    entry: RegistryEntry<R>,
) -> Result<(), OutOfMemory>
    requires shape { has_hash (string_bytes name) ≡ true }
    requires kept { IsKept (entries_kept entries.old.entries) names.old }
    ensures ok { OnOk result (entries_kept entries.new.entries ≡ entries_with name entry entries.old.entries) }
    ensures err { OnErr result (entries_kept entries.new.entries ≡ entries_kept entries.old.entries) }
    ensures kept { IsKept (entries_kept entries.new.entries) names.new }
{
    let to_keep = to_keep(alloc, names, name.as_str())?;
    entries.insert(name, entry)?;
    let Some(to_keep) = to_keep else {
        return Ok(());
    };
    let (shape_name, name) = to_keep;
    if let Err(refused) = names.insert(shape_name, name) {
        // No name of this shape name was there, so the entry is new.
        let AllocFailed { value } = refused;
        let (_, name) = value;
        entries.remove(name.as_str());
        return Err(OutOfMemory);
    }
    Ok(())
}
