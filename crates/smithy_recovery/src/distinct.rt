// Names that stand once.
ghost use Rattle.std.specs.Prelude.{◌≡◌, IfOk, map};
ghost use Rattle.std.specs.Cmp.Lexicographic.{slice_cmp};
ghost use Rattle.std.specs.Ordering.{nat_cmp, is_lt};
ghost use Rattle.smithy_types.specs.Texts.{are_distinct};
ghost use Rattle.smithy_recovery.specs.views.NameOrder.{first_below, rise};

use smithy_types::OutOfMemory;
use std::alloc::Global;
use std::collections::BTreeMap;

// Whether a name stands before another in byte order.
fn is_below(name: &str, other: &str) -> bool
    ensures { result ≡ is_lt (slice_cmp nat_cmp name.now other.now) }
{
    name.cmp(other).is_lt()
}

// Whether the first name stands before the second, if there are two.
fn is_first_below(names: &[&str]) -> bool
    ensures { result ≡ first_below (map (λ n. n.now) names.now) }
{
    match names {
        [] => true,
        [_] => true,
        [name, next, ..] => is_below(*name, *next),
    }
}

// Whether each name stands before the next in byte order.
fn rise(names: &[&str]) -> bool
    ensures { result ≡ rise (map (λ n. n.now) names.now) }
{
    for i in 0..names.len() {
        if !is_first_below(&names[i..]) {
            return false;
        }
    }
    true
}

// Whether no two of the names are the same, by a map of those behind.
fn are_apart<'t>(alloc: Global, names: &[&'t str]) -> Result<bool, OutOfMemory>
    ensures { IfOk result (λ b. b ≡ are_distinct (map (λ n. n.now) names.now)) }
{
    let mut later = BTreeMap::new(alloc);
    let mut i = names.len();
    while i > 0 {
        i -= 1;
        let name = names[i];
        if later.get(&name).is_some() {
            return Ok(false);
        }
        later.insert(name, i)?;
    }
    Ok(true)
}

/// Whether no two of the names are the same. Takes memory, unless each stands before the next in byte order.
pub fn are_distinct<'t>(alloc: Global, names: &[&'t str]) -> Result<bool, OutOfMemory>
    ensures { IfOk result (λ b. b ≡ are_distinct (map (λ n. n.now) names.now)) }
{
    if rise(names) {
        return Ok(true);
    }
    are_apart(alloc, names)
}
