//! Canonic numbers and numeric literals, from docs/RULES.md, "Canonic numbers", and docs/FORMATS.md, "Grammar of
//! lines".
use canonic_number::{
    Numeral, canonic_of, cmp_numerals, is_canonic, is_numeric, parts, read_numeral,
};
use refusal::Refusal;
use std::alloc::Global;
use std::cmp::Ordering;
use std::test::Fail;

#[test]
fn is_canonic_of_shortest_forms_alone_is_true(rt: HostRuntime) {
    let shortest: &[&[u8]] = &[
        b"0", b"5", b"12", b"-3", b".5", b"-.5", b"1.5", b"100", b"12.034",
    ];
    for text in shortest {
        assert!(rt; is_canonic(text), "{text:?}");
    }
}

#[test]
fn is_canonic_of_other_forms_is_false(rt: HostRuntime) {
    let others: &[&[u8]] = &[
        b"007", b"-0", b"0.5", b"1.50", b".50", b"5.", b".", b"-", b"", b"+1", b"1E3", b"-.0",
        b"x", b"-007", b"1.2.3",
    ];
    for text in others {
        assert!(rt; !is_canonic(text), "{text:?}");
    }
}

// Whether the text is numeric, and its canonic number this; or neither, where this is empty.
fn has_canonic(alloc: Global, text: &[u8], canonic: &[u8]) -> Result<bool, Refusal> {
    let found = canonic_of(alloc, text)?;
    let digits: &[u8] = match &found {
        Some(digits) => digits.as_slice(),
        None => b"",
    };
    Ok(
        digits == canonic
            && found.is_some() == is_numeric(text)
            && canonic.is_empty() != is_numeric(text),
    )
}

#[test]
fn canonic_of_drops_zeros_that_do_not_count(rt: HostRuntime) -> Result<(), Fail> {
    let rows: &[(&[u8], &[u8])] = &[
        (b"01.50", b"1.5"),
        (b"0.50", b".5"),
        (b"-0", b"0"),
        (b"-0.0", b"0"),
        (b"-00.10", b"-.1"),
        (b".000", b"0"),
        (b"007", b"7"),
        (b"100", b"100"),
        (b"5.00", b"5"),
        (b"1.", b""),
        (b"+1", b""),
        (b"1E3", b""),
        (b"--1", b""),
        (b"", b""),
        (b"-", b""),
        (b".", b""),
        (b"-.", b""),
        (b"1.2.3", b""),
        (b"x", b""),
    ];
    for &(text, canonic) in rows {
        assert!(rt; has_canonic(rt.alloc(), text, canonic)?, "{text:?}");
    }
    Ok(())
}

// A canonic number, and its parts.
type Worked = (
    &'static [u8],
    bool,
    (usize, usize),
    (&'static [u8], &'static [u8]),
);

fn has_parts(text: &[u8], negative: bool, place: (usize, usize), digits: (&[u8], &[u8])) -> bool {
    match parts(text) {
        Some(parts) => {
            parts.negative == negative
                && (parts.whole, parts.zeros) == place
                && (parts.first, parts.second) == digits
        }
        None => false,
    }
}

// The first number that has other parts.
fn first_other(rows: &[Worked]) -> Option<usize> {
    for (i, (text, negative, place, digits)) in rows.iter().enumerate() {
        if !has_parts(text, *negative, *place, *digits) {
            return Some(i);
        }
    }
    None
}

const WORKED: [Worked; 8] = [
    (b"7", false, (1, 0), (b"7", b"")),
    (b"10", false, (2, 0), (b"1", b"")),
    (b"12", false, (2, 0), (b"12", b"")),
    (b"-1.5", true, (1, 0), (b"1", b"5")),
    (b"-.5", true, (0, 0), (b"", b"5")),
    (b".05", false, (0, 1), (b"", b"5")),
    (b"100", false, (3, 0), (b"1", b"")),
    (b"0", false, (0, 0), (b"", b"")),
];

#[test]
fn parts_of_worked_numbers(rt: HostRuntime) {
    assert_eq!(rt; first_other(&WORKED), None);
}

#[test]
fn parts_of_what_is_not_canonic_are_none(rt: HostRuntime) {
    assert!(rt; parts(b"007").is_none());
}

fn order_of(a: &[u8; 255], b: &[u8; 255]) -> Option<Ordering> {
    let first: Numeral<'_> = read_numeral(a)?;
    let second = read_numeral(b)?;
    Some(cmp_numerals(&first, &second))
}

// As many digits as a subscript can have: no machine number holds them.
#[test]
fn cmp_numerals_of_255_digits_looks_at_the_last(rt: HostRuntime) {
    let greater = [b'9'; 255];
    let mut less = greater;
    less[254] = b'8';
    let found = [
        order_of(&greater, &less),
        order_of(&less, &greater),
        order_of(&greater, &greater),
    ];
    let want = [
        Some(Ordering::Greater),
        Some(Ordering::Less),
        Some(Ordering::Equal),
    ];
    assert!(rt; found == want);
}
