// How much room is made ahead.
ghost use Rattle.std.specs.Prelude.{◌≡◌, min};

/// The most items for which room is made before they are read, whatever length was told.
pub const MAX_CONTAINER_PREALLOC: usize = 10_000;

/// The lesser of the number and 10,000. Takes no memory.
pub fn capped_container_size(raw: usize) -> usize
    ensures { result ≡ min raw 10_000 }
{
    raw.min(MAX_CONTAINER_PREALLOC)
}
