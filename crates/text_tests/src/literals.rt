//! Literals and references as text: the grammar and the tables of docs/FORMATS.md, "Lines" and "Written literals".
use key_codec::{Key, KeyDraft};
use m_text::{
    after, is_word, number_up_to, read_literal, read_reference, split_digits, split_letters,
    write_key, write_literal,
};
use refusal::Refusal;
use std::alloc::Global;
use std::test::Fail;

// Whether the whole text is a literal of the string.
fn is_literal_of(alloc: Global, text: &[u8], string: &[u8]) -> Result<bool, Refusal> {
    let (read, rest) = read_literal(alloc, text)?;
    Ok(read.as_slice() == string && rest.is_empty())
}

fn literal_of(alloc: Global, string: &[u8]) -> Result<Vec<u8>, Refusal> {
    let mut out = Vec::new(alloc);
    write_literal(string, &mut out)?;
    Ok(out)
}

fn is_read_again(alloc: Global, string: &[u8]) -> Result<bool, Refusal> {
    let literal = literal_of(alloc, string)?;
    is_literal_of(alloc, &literal, string)
}

fn is_written_as(alloc: Global, string: &[u8], text: &[u8]) -> Result<bool, Refusal> {
    let literal = literal_of(alloc, string)?;
    Ok(literal.as_slice() == text)
}

#[test]
fn strings_of_the_table_are_written_and_read(rt: HostRuntime) -> Result<(), Fail> {
    let alloc = rt.alloc();
    let table: &[(&[u8], &[u8])] = &[
        (b"7", b"7"),
        (b"007", b"\"007\""),
        (b"-.5", b"-.5"),
        (b"-0", b"\"-0\""),
        (b"a\"b", b"\"a\"\"b\""),
        (b"\x00\x01b", b"$C(0,1)_\"b\""),
        (b"a\n", b"\"a\"_$C(10)"),
        (b"\xC3\xA9", b"$C(195,169)"),
        (b"", b"\"\""),
    ];
    for &(string, text) in table {
        assert!(rt; is_written_as(alloc, string, text)?, "{text:?}");
        assert!(rt; is_literal_of(alloc, text, string)?, "{text:?}");
    }
    Ok(())
}

#[test]
fn read_literal_of_other_forms_gives_the_string(rt: HostRuntime) -> Result<(), Fail> {
    let alloc = rt.alloc();
    let forms: &[(&[u8], &[u8])] = &[
        (b"01.50", b"1.5"),
        (b"0.50", b".5"),
        (b"-0", b"0"),
        (b"-0.0", b"0"),
        (b"-00.10", b"-.1"),
        (b".5", b".5"),
        (b"\"7\"", b"7"),
        (b"$C(007)", b"\x07"),
        (b"$c(65)", b"A"),
        (b"$Char(65,066,255)", b"AB\xFF"),
        (b"\"a\"_\"b\"_$C(0)", b"ab\x00"),
        (b"\"\"_\"\"", b""),
        (b"\"\xC3\xA9\"", b"\xC3\xA9"),
        (b"\"\"\"\"", b"\""),
    ];
    for &(text, string) in forms {
        assert!(rt; is_literal_of(alloc, text, string)?, "{text:?}");
    }
    Ok(())
}

// Whether some of the text is left, or it was refused as no literal.
fn is_no_literal(alloc: Global, text: &[u8]) -> Result<bool, Refusal> {
    match read_literal(alloc, text) {
        Ok((_, rest)) => Ok(!rest.is_empty()),
        Err(Refusal::BadLine) => Ok(true),
        Err(refusal) => Err(refusal),
    }
}

#[test]
fn read_literal_of_what_is_none_reads_less(rt: HostRuntime) -> Result<(), Fail> {
    let texts: &[&[u8]] = &[
        b"1.",
        b"+1",
        b"1E3",
        b"--1",
        b"",
        b".",
        b"-",
        b"1.2.3",
        b"\"a",
        b"\"a\"\"",
        b"\"a\"_1",
        b"1_\"a\"",
        b"\"a\"_",
        b"$C()",
        b"$C(256)",
        b"$C(0065)",
        b"$C(1,)",
        b"$C(1",
        b"$CH(1)",
        b"$C 1)",
        b"$",
        b"$C(-1)",
    ];
    for text in texts {
        assert!(rt; is_no_literal(rt.alloc(), text)?, "{text:?}");
    }
    Ok(())
}

// Whether the byte is read again, before each of these too.
fn is_read_again_before(alloc: Global, first: u8, seconds: &[u8]) -> Result<bool, Refusal> {
    for second in seconds {
        if !is_read_again(alloc, &[first, *second])? {
            return Ok(false);
        }
    }
    is_read_again(alloc, &[first])
}

// Each byte alone, and each pair of bytes that mean something in a literal.
#[test]
fn short_strings_are_read_again(rt: HostRuntime) -> Result<(), Fail> {
    let telling = b"\"_$-.07A\x1F\x7F";
    for byte in 0..=255u8 {
        let seconds: &[u8] = if telling.contains(&byte) {
            telling
        } else {
            b""
        };
        assert!(rt; is_read_again_before(rt.alloc(), byte, seconds)?, "{byte}");
    }
    Ok(())
}

fn is_key_written_as(alloc: Global, key: &Key, text: &[u8]) -> Result<bool, Refusal> {
    let mut out = Vec::new(alloc);
    write_key(key, &mut out)?;
    Ok(out.as_slice() == text)
}

// Whether a reference is read from the text's front, leaves this rest, and is written so.
fn is_kept_as(alloc: Global, text: &[u8], written: &[u8], rest: &[u8]) -> Result<bool, Refusal> {
    let mut draft = KeyDraft::new(alloc);
    let (key, behind) = read_reference(alloc, text, &mut draft)?;
    Ok(behind == rest && is_key_written_as(alloc, &key, written)?)
}

#[test]
fn read_reference_of_a_reference_is_written_again(rt: HostRuntime) -> Result<(), Fail> {
    let alloc = rt.alloc();
    let rows: &[(&[u8], &[u8], &[u8])] = &[
        (b"^A", b"^A", b""),
        (b"^%a1=", b"^%a1", b"="),
        (b"^A(01.50,\"x\") ", b"^A(1.5,\"x\")", b" "),
        (
            b"^A($c(0,1)_\"b\",\"007\")",
            b"^A($C(0,1)_\"b\",\"007\")",
            b"",
        ),
    ];
    for &(text, written, rest) in rows {
        assert!(rt; is_kept_as(alloc, text, written, rest)?, "{text:?}");
        assert!(rt; is_kept_as(alloc, written, written, b"")?, "{written:?}");
    }
    Ok(())
}

fn refusal_of(alloc: Global, text: &[u8]) -> Option<Refusal> {
    let mut draft = KeyDraft::new(alloc);
    read_reference(alloc, text, &mut draft).err()
}

#[test]
fn read_reference_of_faults_gives_the_first(rt: HostRuntime) {
    let alloc = rt.alloc();
    let rows: &[(&[u8], Refusal)] = &[
        (b"A", Refusal::BadLine),
        (b"^", Refusal::BadLine),
        (b"^A()", Refusal::BadLine),
        (b"^1A(\"\"", Refusal::BadLine),
        (b"^1A(\"\")", Refusal::BadName),
        (b"^A%(1)", Refusal::BadName),
        (b"^A2345678901234567890123456789012", Refusal::BadName),
        (b"^A(1,\"\",1)", Refusal::EmptySubscript),
        (
            b"^A(\"\",1,1,1,1,1,1,1,1,1,1,1,1,1,1,1,1,1,1,1,1,1,1,1,1,1,1,1,1,1,1,1)",
            Refusal::TooManySubscripts,
        ),
    ];
    for &(text, refusal) in rows {
        assert_eq!(rt; refusal_of(alloc, text), Some(refusal), "{text:?}");
    }
}

fn is_split(parts: (&[u8], &[u8]), front: &[u8], rest: &[u8]) -> bool {
    parts.0 == front && parts.1 == rest
}

#[test]
fn words_at_the_front_are_split(rt: HostRuntime) {
    assert!(rt; is_split(split_digits(b"12a"), b"12", b"a"));
    assert!(rt; is_split(split_letters(b"Set ^A"), b"Set", b" ^A"));
}

#[test]
fn words_are_compared_and_signs_passed(rt: HostRuntime) {
    assert!(rt; is_word(b"SET", b"sEt") && !is_word(b"SET", b"SETS"));
    assert_eq!(rt; after(b'=', b"=1"), Some(b"1".as_slice()));
}

#[test]
fn number_up_to_a_limit_takes_any_number_of_digits(rt: HostRuntime) {
    let found = [
        number_up_to(255, b"000255"),
        number_up_to(255, b"256"),
        number_up_to(4096, b"4096"),
        number_up_to(4096, b"18446744073709551617"),
    ];
    assert!(rt; found == [Some(255), None, Some(4096), None]);
}
