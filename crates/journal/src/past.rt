//! The units that the log has dropped, as contracts know them.
ghost use Rattle.std.specs.Prelude.{◌≡◌, ◌++◌, [], take};
ghost use Rattle.journal.specs.Adopted.{adopted_units};
ghost use Rattle.journal.specs.Dropped.{joined};

use crate::before::Before;
use crate::log::Log;
use collation::Text;
use key_codec::Key;
use std::marker::Model;

// A database that was taken over at a number, seen as the units that leave it.
#[derive(Drop)]
struct Adopted {
    number: u64,
    nodes: Before<Vec<(Key, Text)>>,
}

impl Model for Adopted {
    ghost use Rattle.std.specs.Prelude.{List};
    ghost use Rattle.journal.specs.declared.unit.Unit.{Unit as JournalUnit};
    ghost use Rattle.journal.specs.Adopted.{adopted_units};

    ghost Value = { List JournalUnit };

    ghost view = { λ a. adopted_units a.number a.nodes.value.items };
}

/// The units before those of the log: list after list, the newest first, and before them those of a database that was
/// taken over. No byte keeps them; only contracts speak of them.
#[derive(Drop)]
pub(crate) struct Past {
    before: Option<Before<Past>>,
    log: Option<Before<Log>>,
    adopted: Option<Before<Adopted>>,
    count: u64,
}

impl Model for Past {
    ghost use Rattle.std.specs.Prelude.{List, length, option_map};
    ghost use Rattle.journal.specs.declared.unit.Unit.{Unit as JournalUnit};
    ghost use Rattle.journal.specs.Dropped.{lists_of, units_of};

    ghost Value = { List (List JournalUnit) };

    ghost view = { λ p. lists_of p.count (option_map (λ s. s.value) p.before) (option_map (λ s. units_of s.value) p.log) (option_map (λ s. s.value) p.adopted) };

    ghost size = { length };
}

impl Past {
    /// Nothing was dropped.
    pub(crate) fn new() -> Past
        ensures { joined result ≡ [] }
    {
        Past {
            before: None,
            log: None,
            adopted: None,
            count: 0,
        }
    }

    /// These references with their values were taken over at this number.
    pub(crate) fn adopt(number: u64, nodes: &Vec<(Key, Text)>) -> Past
        ensures { joined result ≡ adopted_units number nodes.now.items }
    {
        let adopted = Adopted {
            number,
            nodes: Before::of(nodes),
        };
        Past {
            before: None,
            log: None,
            adopted: Some(Before::of(&adopted)),
            count: 0,
        }
    }

    /// The first so many units of the log are dropped too.
    pub(crate) fn with(&self, log: &Log, count: u64) -> Past
        ensures { joined result ≡ joined self.now ++ take count log.now.units }
    {
        Past {
            before: Some(Before::of(self)),
            log: Some(Before::of(log)),
            adopted: None,
            count,
        }
    }
}
