//! Worked scripts: what goes in and what comes out, from docs/RULES.md and docs/FORMATS.md.
use crate::lines::stretched;
use listing::Counted;
use script_run::{Pace, Upkeep, run_script};
use std::alloc::{AllocError, Global};
use std::test::Fail;
use worked_rows::{ANSWERED, REFUSED, Row};

/// What a script writes, and whether a reply was refused.
pub fn output_of(alloc: Global, input: &[u8]) -> Result<(Vec<u8>, bool), Fail> {
    let mut reader = Counted::new(input);
    let mut writer = Counted::new(Vec::new(alloc));
    let outcome = run_script(alloc, Upkeep::none(), &mut reader, &mut writer)?;
    let text = Vec::from_slice(alloc, writer.inner())?;
    Ok((text, outcome.refused))
}

// Whether the script writes just this, and refuses a line where an error stands in it. The collector passes, and
// checkpoints are taken, as `upkeep` says.
fn writes(alloc: Global, upkeep: Upkeep, script: &str, output: &str) -> Result<bool, Fail> {
    let mut reader = Counted::new(script.as_bytes());
    let mut writer = Counted::new(Vec::new(alloc));
    let outcome = run_script(alloc, upkeep, &mut reader, &mut writer)?;
    let is_same = writer.inner().as_slice() == output.as_bytes();
    Ok(is_same && outcome.refused == output.contains("error"))
}

// When the collector passes, and when a checkpoint is taken.
const OFTEN: [(Pace, Pace); 9] = [
    (Pace::Never, Pace::Never),
    (Pace::Every(1), Pace::Never),
    (Pace::Every(2), Pace::Never),
    (Pace::Every(7), Pace::Never),
    (Pace::Never, Pace::Every(1)),
    (Pace::Every(0), Pace::Every(3)),
    (Pace::Every(1), Pace::Every(1)),
    (Pace::Every(2), Pace::Every(3)),
    (Pace::WhereCheap, Pace::WhereCheap),
];

// When they are where the script then writes something else than this; or none.
fn first_unlike(alloc: Global, script: &str, output: &str) -> Result<Option<(Pace, Pace)>, Fail> {
    for &(collector, checkpoints) in &OFTEN {
        let upkeep = Upkeep {
            collector,
            checkpoints,
        };
        if !writes(alloc, upkeep, script, output)? {
            return Ok(Some((collector, checkpoints)));
        }
    }
    Ok(None)
}

/// The number of the first script that writes something else than its output, however often the collector passes and
/// checkpoints are taken; or none.
pub fn first_other(alloc: Global, rows: &[Row]) -> Result<Option<usize>, Fail> {
    for (i, (script, output)) in rows.iter().enumerate() {
        if first_unlike(alloc, script, output)?.is_some() {
            return Ok(Some(i));
        }
    }
    Ok(None)
}

#[test]
fn worked_scripts_write_their_outputs(rt: HostRuntime) -> Result<(), Fail> {
    assert_eq!(rt; first_other(rt.alloc(), &ANSWERED)?, None);
    Ok(())
}

#[test]
fn refused_lines_keep_their_place(rt: HostRuntime) -> Result<(), Fail> {
    assert_eq!(rt; first_other(rt.alloc(), &REFUSED)?, None);
    Ok(())
}

/// Whether a script writes just this, and whether it refuses a line is as told.
pub fn is_output(alloc: Global, input: &[u8], want: &[u8], refused: bool) -> Result<bool, Fail> {
    let (text, found) = output_of(alloc, input)?;
    Ok(text.as_slice() == want && found == refused)
}

/// Whether what a script writes ends so.
pub fn has_end(alloc: Global, input: &[u8], end: &[u8]) -> Result<bool, Fail> {
    let (text, _) = output_of(alloc, input)?;
    Ok(text.ends_with(end))
}

// Nines, so many, between a front and a back.
fn push_nines(
    text: &mut Vec<u8>,
    front: &[u8],
    count: usize,
    back: &[u8],
) -> Result<(), AllocError> {
    text.extend_from_slice(front)?;
    for _ in 0..count {
        text.push(b'9')?;
    }
    text.extend_from_slice(back)
}

fn script_of_nines(alloc: Global) -> Result<Vec<u8>, AllocError> {
    let mut input = Vec::new(alloc);
    for count in [127, 126, 128] {
        push_nines(&mut input, b"1 SET ^A(", count, b")=1\n")?;
    }
    input.extend_from_slice(b"1 SET ^A(01.50)=-0\n")?;
    Ok(input)
}

fn output_of_nines(alloc: Global) -> Result<Vec<u8>, AllocError> {
    let mut output = Vec::from_slice(alloc, b"1 ok\n1 ok\n1 ok\n1 ok\n--\n^A(1.5)=0\n")?;
    for count in [126, 127, 128] {
        push_nines(&mut output, b"^A(", count, b")=1\n")?;
    }
    Ok(output)
}

#[test]
fn numbers_past_127_bytes_stand_by_value(rt: HostRuntime) -> Result<(), Fail> {
    let input = script_of_nines(rt.alloc())?;
    let want = output_of_nines(rt.alloc())?;
    assert!(rt; is_output(rt.alloc(), &input, &want, false)?);
    Ok(())
}

type Number = (&'static [u8], u8, usize, &'static [u8]);

// A front, a digit so many times, and a back: in the order of numbers, up to 255 digits and 254 places.
const NUMBERS: [Number; 12] = [
    (b"-", b'9', 254, b""),
    (b"-1", b'0', 253, b""),
    (b"-.", b'0', 252, b"1"),
    (b".", b'0', 253, b"1"),
    (b".", b'0', 253, b"2"),
    (b".", b'0', 127, b"1"),
    (b"1.", b'0', 252, b"1"),
    (b"1", b'0', 127, b""),
    (b"", b'9', 199, b""),
    (b"", b'9', 200, b""),
    (b"1", b'0', 254, b""),
    (b"", b'9', 255, b""),
];

// Writes the number as a subscript behind this.
fn push_number(
    alloc: Global,
    text: &mut Vec<u8>,
    front: &[u8],
    number: &Number,
) -> Result<(), Fail> {
    let digits = stretched(alloc, number.0, number.1, number.2, number.3)?;
    text.extend_from_slice(front)?;
    text.extend_from_slice(&digits)?;
    text.extend_from_slice(b")=1\n")?;
    Ok(())
}

fn script_of_numbers(alloc: Global) -> Result<Vec<u8>, Fail> {
    let mut input = Vec::new(alloc);
    for number in NUMBERS.iter().rev() {
        push_number(alloc, &mut input, b"1 SET ^A(", number)?;
    }
    Ok(input)
}

fn output_of_numbers(alloc: Global) -> Result<Vec<u8>, Fail> {
    let mut output = Vec::new(alloc);
    for _ in &NUMBERS {
        output.extend_from_slice(b"1 ok\n")?;
    }
    output.extend_from_slice(b"--\n")?;
    for number in &NUMBERS {
        push_number(alloc, &mut output, b"^A(", number)?;
    }
    Ok(output)
}

#[test]
fn numbers_stand_by_value_up_to_255_bytes(rt: HostRuntime) -> Result<(), Fail> {
    let input = script_of_numbers(rt.alloc())?;
    let want = output_of_numbers(rt.alloc())?;
    assert!(rt; is_output(rt.alloc(), &input, &want, false)?);
    Ok(())
}

fn script_of_a_deep_copy(alloc: Global) -> Result<Vec<u8>, AllocError> {
    let mut input = Vec::from_slice(alloc, b"1 SET ^B(1)=1\n1 MERGE ^A(1")?;
    for _ in 1..31 {
        input.extend_from_slice(b",1")?;
    }
    input.extend_from_slice(b")=^B\n")?;
    Ok(input)
}

#[test]
fn a_copy_too_deep_sets_nothing(rt: HostRuntime) -> Result<(), Fail> {
    let input = script_of_a_deep_copy(rt.alloc())?;
    let want = b"1 ok\n1 error 5 TooManySubscripts\n--\n^B(1)=1\n";
    assert!(rt; is_output(rt.alloc(), &input, want, true)?);
    Ok(())
}
