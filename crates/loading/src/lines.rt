//! Lines cut out of a text, and headers.
ghost use Rattle.std.specs.Prelude.{◌≡◌};
ghost use Rattle.std.specs.Io.BufRead.{strip_last};
ghost use Rattle.bstr.specs.Find.{IsFirstByte, is_byte};
ghost use Rattle.collation.specs.Bytes as byte;
ghost use Rattle.loading.specs.Lines as lines;

use bstr::ByteSlice;
use m_text::after;

/// The line without the byte 13 at its end, if it has one.
pub(crate) fn strip_return(line: &[u8]) -> &[u8]
    ensures { result.now ≡ strip_last byte.carriage_return line.now }
{
    if !line.is_empty() && line[line.len() - 1] == 13 {
        return &line[..line.len() - 1];
    }
    line
}

/// Where the first line ends, if it does.
pub(crate) fn line_end(text: &[u8]) -> Option<usize>
    ensures { IsFirstByte (is_byte byte.line_feed) text.now result }
{
    text.find_byte(b'\n')
}

fn ends_in_zwr(line: &[u8]) -> bool
    ensures { result ≡ lines.ends_in_zwr line.now }
{
    &line[line.len().saturating_sub(3)..] == b"ZWR".as_slice()
}

fn is_header(line: &[u8]) -> bool
    ensures { result ≡ lines.is_header line.now }
{
    after(b'^', line).is_none()
}

/// Whether two lines at the front of a text are headers.
pub(crate) fn are_headers(first: &[u8], second: &[u8]) -> bool
    ensures { result ≡ lines.are_headers first.now second.now }
{
    is_header(first) && is_header(second) && ends_in_zwr(second)
}
