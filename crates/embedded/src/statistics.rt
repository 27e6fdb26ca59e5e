//! What an engine holds, in numbers.
ghost use Rattle.std.specs.Prelude.{◌≡◌, length};
ghost use Rattle.embedded.specs.Calls.{count_of, IsCheckpointCall, IsCollectCall, IsCount};

use crate::{Embedded, Outcome};
use globals::{Cut, OrderedView, walk_from};

/// What an engine holds.
#[derive(Clone, Copy, Debug, PartialEq, Eq)]
pub struct Statistics {
    /// How many units the journal has.
    pub units: u64,
    /// How many bytes those of them take that it hasn't dropped.
    pub journal_bytes: u64,
    /// How many nodes have a value. The count saturates at 2^64 - 1.
    pub nodes: u64,
}

// How many nodes of a view have a value.
fn count_nodes<V: OrderedView>(view: &V) -> u64
    ensures { result ≡ count_of (V.content view.now) }
{
    let mut nodes: u64 = 0;
    'nodes: for _node in walk_from(view, Cut::Start) {
        nodes = nodes.saturating_add(1);
    }
    nodes
}

impl Embedded {
    /// What the engine holds. Walks over all nodes; takes no memory.
    pub fn statistics(&self) -> Statistics
        ensures { IsCount self.now result.units result.journal_bytes result.nodes }
    {
        let journal = self.core.journal();
        Statistics {
            units: journal.len(),
            journal_bytes: journal.size() as u64,
            nodes: count_nodes(&self.core.content()),
        }
    }

    /// How many units the journal has, those too that a checkpoint dropped: after a command that leaves one, such as a
    /// commit, this is its place in the journal, counted from 1. Takes no memory, and no walk.
    pub fn units(&self) -> u64
        ensures { result ≡ length self.now.core.machine.units }
    {
        self.core.journal().len()
    }

    /// Lets the collector look at so many nodes, from where it stopped: it drops what nobody can read any more. No
    /// reply and no listing depends on it.
    ///
    /// `OutOfMemory`, after which nothing has changed.
    pub fn collect(&mut self, limit: usize) -> Outcome
        ensures { IsCollectCall self.old self.new result }
    {
        match self.core.collect(limit) {
            Ok(_) => Outcome::Done,
            Err(refusal) => Outcome::Refused(refusal),
        }
    }

    /// Lets the journal drop its units up to the least start of an open transaction, or all where none is open: what
    /// they leave is kept in their place. No reply and no listing depends on it.
    ///
    /// `OutOfMemory`, after which nothing has changed.
    pub fn checkpoint(&mut self) -> Outcome
        ensures { IsCheckpointCall self.old self.new result }
    {
        match self.core.checkpoint() {
            Ok(_) => Outcome::Done,
            Err(refusal) => Outcome::Refused(refusal),
        }
    }
}
