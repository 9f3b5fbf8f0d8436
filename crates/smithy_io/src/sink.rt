// Where bytes go.
ghost use Rattle.std.specs.Prelude.{◌≡◌, ℕ, ◌<◌, ◌≤◌, List, Option, length, take, IfOk, OnErr};
ghost use Rattle.smithy_io.specs.Causes.{Rose};
ghost use Rattle.smithy_io.specs.Streams.{Gained, Keeps, IsFull};

use crate::source::Failed;

/// Takes bytes piece by piece.
pub trait Sink {
    // what was written so far, where the sink tells it
    ghost written: { Self → Option (List ℕ) };

    // how often it has failed; the count never falls
    ghost faults: { Self → ℕ };

    // how many bytes in all it takes for sure
    ghost room: { Self → ℕ } = { λ _. 0 };

    /// Takes the first bytes of the piece, and gives how many: at most its length, and at least 1 of a piece that isn't empty.
    /// `Failed` comes only where the count of faults rose and the room that the sink has for sure is full; what was written
    /// then stays as it was.
    fn write(&mut self, bytes: &[u8]) -> Result<usize, Failed>
        ensures within { IfOk result (λ n. n ≤ length bytes.now) }
        ensures some { IfOk result (λ n. 0 < length bytes.now → 0 < n) }
        ensures gained { IfOk result (λ n. Gained (written self.old) (take n bytes.now) (written self.new)) }
        ensures unchanged { OnErr result (Keeps (written self.old) (written self.new)) }
        ensures cause { OnErr result (Rose (faults self.old) (faults self.new)) }
        ensures count { faults self.old ≤ faults self.new }
        ensures room { room self.new ≡ room self.old }
        ensures sure { OnErr result (IsFull (room self.new) (written self.new)) };
}
