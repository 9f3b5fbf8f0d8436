// Where bytes come from.
ghost use Rattle.std.specs.Prelude.{ℕ, ◌<◌, ◌≤◌, Bool, List, Option, length, take, IfOk, OnErr};
ghost use Rattle.smithy_io.specs.Causes.{Stopped, WentWell};
ghost use Rattle.smithy_io.specs.Streams.{Gave, Keeps, EndsAt};

/// The one fault of a source or a sink.
#[derive(Clone, Copy, Debug, PartialEq, Eq, Drop)]
pub struct Failed;

/// Gives its bytes piece by piece.
pub trait Source {
    // the bytes still to come, where the source tells them
    ghost left: { Self → Option (List ℕ) };

    // how often it has failed; the count never falls
    ghost faults: { Self → ℕ };

    // its last read failed
    ghost has_failed: { Self → Bool };

    /// Fills the front of the buffer with the next bytes, and gives how many: at most the buffer's length, and 0 for a buffer
    /// that isn't empty exactly at the end. The count of faults rises by one where `Failed` comes, and stands else; with
    /// `Failed`, what was still to come stays so. What the buffer holds behind the bytes given is left open.
    fn read(&mut self, buf: &mut [u8]) -> Result<usize, Failed>
        ensures within { IfOk result (λ n. n ≤ length buf.old) }
        ensures given { IfOk result (λ n. Gave (left self.old) (take n buf.new) (left self.new)) }
        ensures end { IfOk result (λ n. 0 < length buf.old → EndsAt n (left self.old)) }
        ensures unchanged { OnErr result (Keeps (left self.old) (left self.new)) }
        ensures well { IfOk result (λ _. WentWell (faults self.old) (faults self.new) (has_failed self.new)) }
        ensures cause { OnErr result (Stopped (faults self.old) (faults self.new) (has_failed self.new)) }
        ensures count { faults self.old ≤ faults self.new };
}
