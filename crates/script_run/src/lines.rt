//! Lines cut out of the pieces that are read.
ghost use Rattle.std.specs.Prelude.{◌≡◌, ◌++◌, [], true, length, drop, ◌≤◌, ◌<◌, vec_capacity, if◌then◌else◌, is_ok, IfOk, OnOk, OnErr, IsErrOf};
ghost use Rattle.std.specs.Io.BufRead.{strip_last};
ghost use Rattle.bstr.specs.Find.{IsFirstByte, is_byte};
ghost use Rattle.collation.specs.Bytes as byte;
ghost use Rattle.listing.specs.Bytes.{IsOneMore};
ghost use Rattle.listing.specs.declared.counted.TheConstants.{GATHERED_BYTES};
ghost use Rattle.script_run.specs.Lines.{nonempty_line, has_no_end};
ghost use Rattle.script_run.specs.Runs.{Ran, Broke, RanFront, BrokeFront, Stopped, StoppedFront};

use crate::RunLog;
use crate::answers::{Script, run_kept};
use bstr::ByteSlice;
use listing::{Counted, ListingFault};
use std::alloc::{AllocError, Global};
use std::io::Write;

// A line that took more room than this gives it back.
const LONG_LINE_BYTES: usize = 1048576;

/// A line without the byte 13 at its end, where it has one.
pub fn strip_return(line: &[u8]) -> &[u8]
    ensures { result.now ≡ strip_last byte.carriage_return line.now }
{
    if !line.is_empty() && line[line.len() - 1] == 13 {
        return &line[..line.len() - 1];
    }
    line
}

/// Where the first byte 10 stands, the end of a line.
pub fn line_end(text: &[u8]) -> Option<usize>
    ensures { IsFirstByte (is_byte byte.line_feed) text.now result }
{
    text.find_byte(b'\n')
}

// Runs the whole lines at the front, and answers where what follows them begins.
fn run_lines<W: Write>(
    alloc: Global,
    script: &mut Script,
    text: &[u8],
    writer: &mut Counted<W>,
    log: &mut impl RunLog,
) -> Result<usize, ListingFault>
    ensures in_range { IfOk result (λ at. at ≤ length text.now) }
    ensures ran { IfOk result (λ at. RanFront text.now (drop at text.now) script.old script.new (W.contents writer.old.inner) (W.contents writer.new.inner)) }
    ensures begun { IfOk result (λ at. has_no_end (drop at text.now) ≡ true) }
    ensures few { length script.old.out.items < GATHERED_BYTES → OnOk result (length script.new.out.items < GATHERED_BYTES) }
    ensures err { OnErr result (BrokeFront text.now script.old (W.contents writer.old.inner) (W.contents writer.new.inner)) }
    ensures counts { OnOk result (writer.new.failures ≡ writer.old.failures) }
    ensures counted { IsErrOf result ListingFault.Write → IsOneMore writer.old.failures writer.new.failures }
    ensures memory { IsErrOf result ListingFault.Memory → writer.new.failures ≡ writer.old.failures }
    ensures stopped { IsErrOf result ListingFault.Memory → StoppedFront text.now script.old script.new (W.contents writer.old.inner) (W.contents writer.new.inner) }
{
    let mut at = 0;
    'lines: while let Some(end) = line_end(&text[at..]) {
        let rest = &text[at..];
        let (line, _) = rest.split_at(end);
        run_kept(alloc, script, strip_return(line), writer, log)?;
        at += end + 1;
    }
    Ok(at)
}

/// More of a line. Where room for twice as much is refused, just what is needed is asked for.
pub fn extend_line(begun: &mut Vec<u8>, text: &[u8]) -> Result<(), AllocError>
    ensures { begun.new.items ≡ (if is_ok result then begun.old.items ++ text.now else begun.old.items) }
{
    if begun.extend_from_slice(text).is_ok() {
        return Ok(());
    }
    begun.reserve_exact(text.len())?;
    begun.extend_from_slice(text)
}

/// The line that had begun is done. What a long one took is given back.
pub fn end_begun(alloc: Global, begun: &mut Vec<u8>)
    ensures empty { begun.new.items ≡ [] }
    ensures room { vec_capacity begun.new ≤ LONG_LINE_BYTES }
{
    if begun.capacity() > LONG_LINE_BYTES {
        *begun = Vec::new(alloc);
    } else {
        begun.clear();
    }
}

// The line that had begun ends here: its rest is `front`.
fn end_line<W: Write>(
    alloc: Global,
    script: &mut Script,
    begun: &mut Vec<u8>,
    front: &[u8],
    writer: &mut Counted<W>,
    log: &mut impl RunLog,
) -> Result<(), ListingFault>
    ensures ran { OnOk result (Ran (nonempty_line (strip_last byte.carriage_return (begun.old.items ++ front.now))) script.old script.new (W.contents writer.old.inner) (W.contents writer.new.inner)) }
    ensures begun { OnOk result (begun.new.items ≡ []) }
    ensures few { length script.old.out.items < GATHERED_BYTES → OnOk result (length script.new.out.items < GATHERED_BYTES) }
    ensures err { OnErr result (Broke (nonempty_line (strip_last byte.carriage_return (begun.old.items ++ front.now))) script.old (W.contents writer.old.inner) (W.contents writer.new.inner)) }
    ensures counts { OnOk result (writer.new.failures ≡ writer.old.failures) }
    ensures counted { IsErrOf result ListingFault.Write → IsOneMore writer.old.failures writer.new.failures }
    ensures memory { IsErrOf result ListingFault.Memory → writer.new.failures ≡ writer.old.failures }
    ensures stopped { IsErrOf result ListingFault.Memory → Stopped (nonempty_line (strip_last byte.carriage_return (begun.old.items ++ front.now))) script.old script.new (W.contents writer.old.inner) (W.contents writer.new.inner) }
{
    if begun.is_empty() {
        return run_kept(alloc, script, strip_return(front), writer, log);
    }
    extend_line(begun, front)?;
    run_kept(alloc, script, strip_return(begun), writer, log)?;
    end_begun(alloc, begun);
    Ok(())
}

// Runs the lines that end in the piece, and keeps the one that has begun.
pub(crate) fn run_piece<W: Write>(
    alloc: Global,
    script: &mut Script,
    begun: &mut Vec<u8>,
    piece: &[u8],
    writer: &mut Counted<W>,
    log: &mut impl RunLog,
) -> Result<(), ListingFault>
    requires { has_no_end begun.old.items ≡ true }
    ensures ran { OnOk result (RanFront (begun.old.items ++ piece.now) begun.new.items script.old script.new (W.contents writer.old.inner) (W.contents writer.new.inner)) }
    ensures begun { OnOk result (has_no_end begun.new.items ≡ true) }
    ensures few { length script.old.out.items < GATHERED_BYTES → OnOk result (length script.new.out.items < GATHERED_BYTES) }
    ensures err { OnErr result (BrokeFront (begun.old.items ++ piece.now) script.old (W.contents writer.old.inner) (W.contents writer.new.inner)) }
    ensures counts { OnOk result (writer.new.failures ≡ writer.old.failures) }
    ensures counted { IsErrOf result ListingFault.Write → IsOneMore writer.old.failures writer.new.failures }
    ensures memory { IsErrOf result ListingFault.Memory → writer.new.failures ≡ writer.old.failures }
    ensures stopped { IsErrOf result ListingFault.Memory → StoppedFront (begun.old.items ++ piece.now) script.old script.new (W.contents writer.old.inner) (W.contents writer.new.inner) }
{
    let Some(end) = line_end(piece) else {
        extend_line(begun, piece)?;
        return Ok(());
    };
    let (front, _) = piece.split_at(end);
    end_line(alloc, script, begun, front, writer, log)?;
    let rest = &piece[end + 1..];
    let at = run_lines(alloc, script, rest, writer, log)?;
    extend_line(begun, &rest[at..])?;
    Ok(())
}
