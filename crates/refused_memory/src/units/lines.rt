//! The lines of which the commands are made.
use std::alloc::AllocError;

// A literal of so many letters.
fn push_letters(line: &mut Vec<u8>, count: u64) -> Result<(), AllocError> {
    line.push(b'"')?;
    for _ in 0..count {
        line.push(b'x')?;
    }
    line.push(b'"')?;
    Ok(())
}

// A subscript of 255 bytes that take two bytes each.
fn push_longest_subscript(line: &mut Vec<u8>) -> Result<(), AllocError> {
    line.extend_from_slice(b"$C(0")?;
    for _ in 1..255 {
        line.extend_from_slice(b",1")?;
    }
    line.extend_from_slice(b")")
}

// A reference with the longest key: a name of 31 bytes, and 31 of these subscripts.
fn push_longest(line: &mut Vec<u8>) -> Result<(), AllocError> {
    line.extend_from_slice(b"^abcdefghijklmnopqrstuvwxyzabcde(")?;
    for _ in 1..31 {
        push_longest_subscript(line)?;
        line.extend_from_slice(b",")?;
    }
    push_longest_subscript(line)?;
    line.extend_from_slice(b")")
}

/// The nth reference: a key of 2 to 32 bytes is a name alone, one of up to 64 has a text as subscript; each 97th is the
/// longest.
pub fn push_reference(line: &mut Vec<u8>, n: u64) -> Result<(), AllocError> {
    if n % 97 == 96 {
        return push_longest(line);
    }
    let size = n % 63;
    line.extend_from_slice(b"^A")?;
    if size <= 30 {
        for _ in 0..size {
            line.push(b'b')?;
        }
        return Ok(());
    }
    line.push(b'(')?;
    push_letters(line, size - 2)?;
    line.push(b')')?;
    Ok(())
}

// A text of 0 to 299 bytes.
fn push_value(line: &mut Vec<u8>, n: u64) -> Result<(), AllocError> {
    push_letters(line, n % 300)
}

// What stands before the nth reference.
fn word(n: u64) -> &'static [u8] {
    match n % 9 {
        0 => b"1 SET ",
        1 => b"1 KILL ",
        2 => b"1 MERGE ",
        3 => b"1 $DATA(",
        4 | 5 => b"1 $GET(",
        6 => b"1 $ORDER(",
        _ => b"1 $QUERY(",
    }
}

// The reference or the place of the nth data command.
fn push_place(line: &mut Vec<u8>, n: u64) -> Result<(), AllocError> {
    match n % 18 {
        6 => line.extend_from_slice(b"^A(1,\"\")"),
        15 => line.extend_from_slice(b"^A(\"x\",-2)"),
        8 => line.extend_from_slice(b"^A(\"\")"),
        17 => line.extend_from_slice(b"^A"),
        _ => push_reference(line, n),
    }
}

/// The nth data command's line. Places are in both directions, the last subscript of some empty.
pub fn push_access(line: &mut Vec<u8>, n: u64) -> Result<(), AllocError> {
    line.clear();
    line.extend_from_slice(word(n))?;
    push_place(line, n)?;
    push_rest(line, n)
}

// What stands after it.
fn push_rest(line: &mut Vec<u8>, n: u64) -> Result<(), AllocError> {
    match n % 9 {
        0 => {
            line.push(b'=')?;
            push_value(line, n)
        }
        1 => Ok(()),
        2 => {
            line.push(b'=')?;
            push_reference(line, n / 2)
        }
        5 => {
            line.push(b',')?;
            push_value(line, n)?;
            line.extend_from_slice(b")")
        }
        6 | 7 | 8 if n % 4 < 2 => line.extend_from_slice(b",-1)"),
        _ => line.extend_from_slice(b")"),
    }
}

/// The nth LOCK's line.
pub fn push_lock(line: &mut Vec<u8>, n: u64) -> Result<(), AllocError> {
    line.clear();
    line.extend_from_slice(match n % 4 {
        0 => b"1 LOCK",
        1 => b"1 LOCK (A,",
        2 => b"1 LOCK +(^A(1,\"x\"),A(1,\"x\"),",
        _ => b"1 LOCK -(",
    })?;
    if n % 4 == 0 {
        return Ok(());
    }
    push_reference(line, n)?;
    line.push(b')')?;
    Ok(())
}
