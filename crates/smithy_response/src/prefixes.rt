// The headers behind a prefix.
ghost use Rattle.std.specs.Prelude.{◌≡◌, ◌&&◌, not, nat_eq, is_some, IfOk, OnOk, MatchOption};
ghost use Rattle.smithy_response.specs.Words.{list_any, starts_with, option_copied, is_utf8};
ghost use Rattle.smithy_response.specs.PrefixedHeaders.{behind_lower, with_key, keys_behind_lower};
ghost use Rattle.smithy_response.specs.KnownKeys.{AreKnown};
ghost use Rattle.smithy_response.specs.Settling.{has_unreadable, unreadable_behind_lower};

use smithy_http::{GetAllBytes, HeaderPairs};
use smithy_types::{OutOfMemory, Words};
use std::alloc::Global;
use std::collections::BTreeMap;

// The place of each text that is known.
type KnownKeys<'h> = BTreeMap<&'h str, usize>;

// What stands behind a prefix in a name, both in lower case.
fn behind<'h>(prefix: &str, name: &'h str) -> Option<&'h str>
    ensures { option_copied result ≡ behind_lower prefix.now name.now }
{
    name.strip_prefix(prefix)
}

// Adds a text unless it is one of those that are known.
fn add_key<'h>(keys: &mut Words, known: &mut KnownKeys<'h>, key: &'h str) -> Result<(), OutOfMemory>
    requires { AreKnown known.old keys.old }
    ensures known { OnOk result (AreKnown known.new keys.new) }
    ensures keys { OnOk result (keys.new ≡ with_key keys.old key.now) }
{
    if known.get(&key).is_some() {
        return Ok(());
    }
    known.insert(key, keys.len())?;
    keys.push(key)?;
    Ok(())
}

/// What stands behind a prefix, which is in lower case, each once.
pub(crate) fn keys_behind(
    alloc: Global,
    pairs: HeaderPairs<'_>,
    prefix: &str,
) -> Result<Words, OutOfMemory>
    ensures { IfOk result (λ keys. keys ≡ keys_behind_lower prefix.now pairs.entry) }
{
    let mut keys = Words::new(alloc);
    let mut known = BTreeMap::new(alloc);
    for (name, _) in pairs {
        if let Some(key) = behind(prefix, name) {
            add_key(&mut keys, &mut known, key)?;
        }
    }
    Ok(keys)
}

// Whether the bytes are UTF-8.
fn is_text(value: &[u8]) -> bool
    ensures { result ≡ is_utf8 value.now }
{
    match str::from_utf8(value) {
        Ok(_) => true,
        Err(_) => false,
    }
}

/// Whether some value is not UTF-8.
pub(crate) fn has_unreadable(values: GetAllBytes<'_>) -> bool
    ensures { result ≡ has_unreadable values.entry }
{
    for value in values {
        if !is_text(value) {
            return true;
        }
    }
    false
}

/// Whether some value behind a prefix, which is in lower case, is not UTF-8.
pub(crate) fn has_unreadable_behind(pairs: HeaderPairs<'_>, prefix: &str) -> bool
    ensures { result ≡ unreadable_behind_lower prefix.now pairs.entry }
{
    for (name, value) in pairs {
        if behind(prefix, name).is_some() && !is_text(value) {
            return true;
        }
    }
    false
}
