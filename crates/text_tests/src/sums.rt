//! The number that a text begins with, and sums of two. The sums of numbers are those of Python's `decimal`.
use decimal_sum::{number_of, sum};
use refusal::Refusal;
use std::alloc::Global;
use std::test::Fail;

// A text, and the number that it begins with.
type Begun = (&'static [u8], &'static [u8]);

const BEGUN: [Begun; 24] = [
    (b"12 apples", b"12"),
    (b"-3.50x", b"-3.5"),
    (b"--4", b"4"),
    (b"+.5", b".5"),
    (b"007", b"7"),
    (b"1E5", b"1"),
    (b"5.", b"5"),
    (b"1.2.3", b"1.2"),
    (b".5.5", b".5"),
    (b"1-2", b"1"),
    (b"1,000", b"1"),
    (b"100", b"100"),
    (b"+-+-+7", b"7"),
    (b"-+-+-00.070", b"-.07"),
    (b"", b"0"),
    (b"abc", b"0"),
    (b"-", b"0"),
    (b".", b"0"),
    (b"-.", b"0"),
    (b"-.x", b"0"),
    (b"-0", b"0"),
    (b"-00.00", b"0"),
    (b" 1", b"0"),
    (b"- 1", b"0"),
];

fn begins_with(alloc: Global, text: &[u8], number: &[u8]) -> Result<bool, Refusal> {
    let found = number_of(alloc, text)?;
    Ok(found.as_slice() == number)
}

// The first text that begins with another number.
fn first_other(alloc: Global, rows: &[Begun]) -> Result<Option<usize>, Refusal> {
    for (i, (text, number)) in rows.iter().enumerate() {
        if !begins_with(alloc, *text, *number)? {
            return Ok(Some(i));
        }
    }
    Ok(None)
}

#[test]
fn number_of_is_what_the_text_begins_with(rt: HostRuntime) -> Result<(), Fail> {
    assert_eq!(rt; first_other(rt.alloc(), &BEGUN)?, None);
    Ok(())
}

// Two texts, and the sum of the numbers that they begin with.
type Added = (&'static [u8], &'static [u8], &'static [u8]);

const ADDED: [Added; 25] = [
    (b".75", b"-1", b"-.25"),
    (b"1", b"2", b"3"),
    (b"9", b"1", b"10"),
    (b"999", b"1", b"1000"),
    (b"-999", b"-1", b"-1000"),
    (b"1000", b"-1", b"999"),
    (b"1", b"-1000", b"-999"),
    (b"5", b"-5", b"0"),
    (b"-.5", b".5", b"0"),
    (b".1", b".2", b".3"),
    (b"1.5", b"1.5", b"3"),
    (b".05", b".95", b"1"),
    (b"10", b".001", b"10.001"),
    (b"-10", b".001", b"-9.999"),
    (b"100", b"-.01", b"99.99"),
    (b"99.99", b".01", b"100"),
    (b"-1", b"3", b"2"),
    (b"18446744073709551615", b"1", b"18446744073709551616"),
    (
        b"123456789012345678901234567890",
        b"987654321098765432109876543210",
        b"1111111110111111111011111111100",
    ),
    (
        b".0000000000000000000000001",
        b"1",
        b"1.0000000000000000000000001",
    ),
    (
        b"1000000000000000000000000",
        b"-.000000000000000000000001",
        b"999999999999999999999999.999999999999999999999999",
    ),
    (b"12 apples", b"-3.50x", b"8.5"),
    (b"apples", b"1", b"1"),
    (b"", b"-", b"0"),
    (b"1E5", b"--1", b"2"),
];

fn is_sum(alloc: Global, a: &[u8], b: &[u8], whole: &[u8]) -> Result<bool, Refusal> {
    let found = sum(alloc, a, b)?;
    Ok(found.as_slice() == whole)
}

fn first_other_sum(alloc: Global, rows: &[Added]) -> Result<Option<usize>, Refusal> {
    for (i, (a, b, whole)) in rows.iter().enumerate() {
        if !is_sum(alloc, *a, *b, *whole)? || !is_sum(alloc, *b, *a, *whole)? {
            return Ok(Some(i));
        }
    }
    Ok(None)
}

#[test]
fn sum_of_two_either_way_round(rt: HostRuntime) -> Result<(), Fail> {
    assert_eq!(rt; first_other_sum(rt.alloc(), &ADDED)?, None);
    Ok(())
}

// Each of many columns carries, and borrows back.
#[test]
fn sum_of_300_nines_and_one_has_301_digits(rt: HostRuntime) -> Result<(), Fail> {
    let nines = [b'9'; 300];
    let mut next = [b'0'; 301];
    next[0] = b'1';
    assert!(rt; is_sum(rt.alloc(), &nines, b"1", &next)?);
    assert!(rt; is_sum(rt.alloc(), &next, b"-1", &nines)?);
    Ok(())
}
