//! Bytes as they come.
ghost use Rattle.std.specs.Prelude.{◌≡◌, ◌<◌, ◌≤◌, ◌++◌, ℕ, List, length, take as front_of, IfOk, OnErr};

use listing::ReadFault;

/// Where a live run's bytes come from. Contracts see those that were taken so far.
pub trait Arrivals {
    /// What tells one of them from others, at all times.
    type Origin;

    /// What was taken so far.
    ghost taken: { Self → List ℕ };

    /// From where they come.
    ghost origin: { Self → Self.Origin };

    /// Lets time pass until there is something to take, an end or a fault too; or, where a time is told, until then at
    /// most. Answers whether there is something and that time isn't over: else a LOCK that is due would wait for a pause
    /// in the input. Times are milliseconds since the run began.
    fn wait(&mut self, until: Option<u64>) -> bool
        ensures taken { taken self.new ≡ taken self.old }
        ensures origin { origin self.new ≡ origin self.old };

    /// Takes what has come, to the front of `piece`, and answers how many bytes that are: none only at the end of
    /// input. Refusals: `ReadFault`, a call of the reader failed; all that it had read before is taken.
    fn take(&mut self, piece: &mut [u8]) -> Result<usize, ReadFault>
        requires { 0 < length piece.old }
        ensures count { IfOk result (λ n. n ≤ length piece.new) }
        ensures bytes { IfOk result (λ n. taken self.new ≡ taken self.old ++ front_of n piece.new) }
        ensures err { OnErr result (taken self.new ≡ taken self.old) }
        ensures origin { origin self.new ≡ origin self.old };
}
