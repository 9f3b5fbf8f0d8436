// Entries: the better one of two.
ghost use Rattle.std.specs.Prelude.{◌≡◌, Some};
ghost use Rattle.smithy_router.specs.Tables.{better, preferred};
ghost use Rattle.smithy_router.specs.Seen.{entry_seen, best_seen};

use crate::route::StoredEntry;

// The new entry where there was none or one that it beats.
fn preferred<'e>(best: Option<&'e StoredEntry>, entry: &'e StoredEntry) -> &'e StoredEntry
    ensures { best_seen (Some result) ≡ preferred (best_seen best.entry) (entry_seen entry.now) }
{
    match best {
        None => entry,
        Some(b) => {
            if entry.route.beats(&b.route) {
                entry
            } else {
                b
            }
        }
    }
}

/// The better one of the best so far and an entry, if that matches. Takes no memory.
pub fn better<'e>(
    method: &str,
    target: &str,
    best: Option<&'e StoredEntry>,
    entry: &'e StoredEntry,
) -> Option<&'e StoredEntry>
    ensures { best_seen result
        ≡ better method.now target.now (best_seen best.entry) (entry_seen entry.now) }
{
    if entry.route.matches(method, target) {
        Some(preferred(best, entry))
    } else {
        best
    }
}
