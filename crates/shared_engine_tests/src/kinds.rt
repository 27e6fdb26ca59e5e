//! What kinds of units a journal has.
use journal::{Journal, Unit};
use std::alloc::AllocError;

// One for a lone command, one for a transaction, and one for an end.
fn kind_of(unit: &Unit) -> (u64, u64, u64) {
    match unit {
        Unit::Lone(_, _, _) => (1, 0, 0),
        Unit::Whole(_, _) => (0, 1, 0),
        Unit::End(_) => (0, 0, 1),
        _ => (0, 0, 0),
    }
}

/// How many units are lone commands, how many transactions, and how many ends.
pub(crate) fn kinds_of(journal: &Journal) -> Result<(u64, u64, u64), AllocError> {
    let mut lone = 0u64;
    let mut whole = 0u64;
    let mut ends = 0u64;
    for unit in journal.units() {
        let unit = unit?;
        let kind = kind_of(&unit);
        drop(unit);
        lone = lone.wrapping_add(kind.0);
        whole = whole.wrapping_add(kind.1);
        ends = ends.wrapping_add(kind.2);
    }
    Ok((lone, whole, ends))
}
