//! What is told besides of a refused line, where what stands there is good in M or in another program.
use loading::FaultyLine;
use script::{Expected, LocatedFault};

// What files begin with that some editors write.
const BYTE_ORDER_MARK: &[u8] = b"\xef\xbb\xbf";

// The first letter of a line's command, in upper case: what stands behind digits and blanks.
fn first_letter(line: &[u8]) -> Option<u8> {
    for byte in line {
        match *byte {
            b'0'..=b'9' | b' ' | b'\t' => {}
            letter => return Some(letter.to_ascii_uppercase()),
        }
    }
    None
}

// Of a comma where a line should end.
fn comma_hint(line: &[u8]) -> &'static str {
    match first_letter(line) {
        Some(b'L') => "; several names go in parentheses",
        _ => "; one argument a line",
    }
}

// Of a reference where a value should stand.
fn reference_hint(line: &[u8]) -> &'static str {
    match first_letter(line) {
        Some(b'S') => "; MERGE copies",
        _ => "",
    }
}

// Of a literal in quotes: a quote in it is doubled, so an odd number of them lacks the last.
fn quote_hint(line: &[u8]) -> &'static str {
    let mut is_open = false;
    for byte in line {
        if *byte == b'"' {
            is_open = !is_open;
        }
    }
    if is_open { "; a quote is missing" } else { "" }
}

// Of a letter where a line should end, by the byte before it.
fn word_hint(before: Option<&u8>) -> &'static str {
    match before {
        Some(b'"') => "; a quote in a text is doubled",
        Some(b' ' | b'\t') => "; one command a line",
        _ => "",
    }
}

// Of what stands where a line should end.
fn end_hint(line: &[u8], at: u8, before: Option<&u8>) -> &'static str {
    match at {
        b',' => comma_hint(line),
        b';' => "; there are no comments",
        b'+' | b'-' | b'*' | b'/' => "; there are no expressions",
        b'a'..=b'z' | b'A'..=b'Z' => word_hint(before),
        _ => "",
    }
}

// Of what stands where a value or a subscript should, with the byte behind it.
fn value_hint(line: &[u8], at: u8, behind: Option<&u8>) -> &'static str {
    match (at, behind) {
        (b'"', _) => quote_hint(line),
        (b'$', Some(b'C' | b'c')) => "",
        (b'$' | b'+' | b'(', _) => "; there are no expressions",
        (b'\'' | b'a'..=b'z' | b'A'..=b'Z', _) => "; a text goes in double quotes",
        _ => "",
    }
}

/// What is told besides of a refused line's fault, or nothing.
pub(crate) fn hint_of(line: &[u8], found: LocatedFault) -> &'static str {
    let column = found.column.saturating_sub(1);
    let Some(at) = line.get(column) else {
        return "";
    };
    match (found.expected, *at) {
        (Expected::Job, b';') => "; there are no comments",
        (Expected::Job, b'^') => "; --load reads listings",
        (Expected::Job, 0xef) if line.starts_with(BYTE_ORDER_MARK) => {
            "; the line begins with a byte order mark"
        }
        (Expected::Operand, b':') => "; there are no post-conditionals",
        (Expected::Equals, b'_') => "; a name has letters and digits alone",
        (Expected::Value, b'^') => reference_hint(line),
        (Expected::Value | Expected::Subscript, at) => value_hint(line, at, line.get(column + 1)),
        (Expected::End, at) => end_hint(line, at, line.get(column.saturating_sub(1))),
        _ => "",
    }
}

/// What is told besides of the fault in a listing's line, or nothing.
pub(crate) fn listing_hint(text: &[u8], line: FaultyLine) -> &'static str {
    let is_at_its_front = line.number == 1 && line.column == 1;
    match text.first() {
        Some(0xef) if is_at_its_front && text.starts_with(BYTE_ORDER_MARK) => {
            "; the listing begins with a byte order mark"
        }
        Some(b'0'..=b'9') if is_at_its_front => "; a listing has no jobs, as a script has",
        _ => "",
    }
}
