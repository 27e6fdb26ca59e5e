//! The order of subscripts and references, from docs/RULES.md, "Order".
use crate::keys::{Row, TABLE};
use crate::references::reference;
use collation::{Ref, cmp_ref, cmp_subscript};
use refusal::Refusal;
use std::alloc::Global;
use std::cmp::Ordering;
use std::test::Fail;

#[test]
fn subscripts_compare_as_numbers_before_strings(rt: HostRuntime) {
    let table: &[(&[u8], &[u8], Ordering)] = &[
        (b"9", b"10", Ordering::Less),
        (b"-9", b"-10", Ordering::Greater),
        (b"2", b"10.5", Ordering::Less),
        (b"zero", b"0", Ordering::Greater),
        (b"007", b"7", Ordering::Greater),
        (b"-0", b"00", Ordering::Less),
    ];
    for &(a, b, want) in table {
        assert_eq!(rt; cmp_subscript(a, b), want);
    }
}

// Whether a reference compares so to another, and is equal to it only where it compares so.
fn compares(here: &Ref, there: &Ref, want: Ordering) -> bool {
    cmp_ref(here, there) == want && (here == there) == want.is_eq()
}

fn is_ordered(alloc: Global, here: &Ref, row: &Row, want: Ordering) -> Result<bool, Refusal> {
    let there = reference(alloc, row.0, row.1)?;
    Ok(compares(here, &there, want))
}

fn are_ordered(alloc: Global, row: &Row, other: &Row, want: Ordering) -> Result<bool, Refusal> {
    let here = reference(alloc, row.0, row.1)?;
    is_ordered(alloc, &here, other, want)
}

// Whether the reference of the row at a place compares with those of the other rows as their places do.
fn stands_at(alloc: Global, row: &Row, place: usize) -> Result<bool, Refusal> {
    for (i, other) in TABLE.iter().enumerate() {
        if !are_ordered(alloc, row, other, place.cmp(&i))? {
            return Ok(false);
        }
    }
    Ok(true)
}

#[test]
fn references_stand_in_the_order_of_the_table(rt: HostRuntime) -> Result<(), Fail> {
    for (i, row) in TABLE.iter().enumerate() {
        assert!(rt; stands_at(rt.alloc(), row, i)?, "{i}");
    }
    Ok(())
}
