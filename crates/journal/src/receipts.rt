//! Receipts for units that a journal took over in one go, given one by one.
ghost use Rattle.std.specs.Prelude.{◌≡◌, ◌≤◌, ◌+◌, ◌<◌, ◌^◌, [], ◌∷◌, length, IfNone, IfSome};
ghost use Rattle.journal.specs.Gathered.{AreGets};
ghost use Rattle.journal.specs.Kept.{claims_of};

use crate::before::Before;
use crate::gets::Gets;
use crate::list::{Journal, Receipt};
use collation::Job;
use std::marker::Model;

/// Where clauses read a receipt's unit: in a journal in which it is prepared, or in the receipts of which it is the first.
#[derive(Drop)]
pub(crate) enum Source {
    Prepared(Before<Journal>),
    First(Before<Receipts>),
}

/// Receipts for $GETs of one job, whose units stand in a row. Each is given once. They are seen as the claims that are
/// left.
#[derive(Drop)]
pub struct Receipts {
    job: Job,
    // Of the receipt that was given last, or of the unit before the first.
    number: u64,
    left: u64,
    gets: Before<Gets>,
}

impl Model for Receipts {
    ghost use Rattle.std.specs.Prelude.{◌≡◌, ◌≤◌, ◌+◌, ◌-◌, ◌<◌, ◌^◌, List, drop, length};
    ghost use Rattle.journal.specs.Gathered.{AreGets};
    ghost use Rattle.journal.specs.Kept.{Claim, claims_of};

    ghost Value = { List Claim };

    ghost view = { λ r. claims_of (r.number + 1) (drop (length r.gets.value.units - r.left) r.gets.value.units) };

    ghost invariant = { λ r. (r.left ≤ length r.gets.value.units) × ((r.number + r.left < 2 ^ 64) × ((r.job ≡ r.gets.value.job) × AreGets r.gets.value)) };
}

impl Receipts {
    // Those of these $GETs, whose units stand behind the one of this number.
    pub(crate) fn of(gets: &Gets, number: u64) -> Receipts
        requires { number + length gets.now.units < 2 ^ 64 }
        ensures { result ≡ claims_of (number + 1) gets.now.units }
    {
        Receipts {
            job: gets.job(),
            number,
            left: gets.len(),
            gets: Before::of(gets),
        }
    }

    /// The next of them, the one of the least number; none where none is left.
    pub fn next(&mut self) -> Option<Receipt>
        ensures next { IfSome result (λ receipt. self.old ≡ receipt ∷ self.new) }
        ensures end { IfNone result (self.old ≡ []) }
        ensures stays { IfNone result (self.new ≡ []) }
    {
        if self.left == 0 {
            return None;
        }
        let source = Source::First(Before::of(&*self));
        self.left -= 1;
        self.number += 1;
        Some(Receipt {
            job: self.job,
            number: self.number,
            source,
        })
    }
}
