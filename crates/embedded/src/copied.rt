//! A text into a buffer that a caller lends.
ghost use Rattle.std.specs.Prelude.{◌≡◌, length};
ghost use Rattle.embedded.specs.Calls.{fits, copied_onto, IsCopied, IsNamed};

use crate::Outcome;

// Copies a text to the front of a buffer, and tells whether it fits, and its length in any case.
pub(crate) fn copy_text(text: &[u8], buffer: &mut [u8], wanted: &mut usize) -> bool
    ensures fits { result ≡ fits text.now buffer.old }
    ensures copied { buffer.new ≡ copied_onto text.now buffer.old }
    ensures wanted { wanted.new ≡ length text.now }
{
    *wanted = text.len();
    if text.len() > buffer.len() {
        return false;
    }
    buffer[..text.len()].copy_from_slice(text);
    true
}

/// Copies a text to the front of a buffer, and answers this outcome; or `BufferTooShort`, and then nothing is written.
///
/// `wanted` gets the text's length in any case. What stands behind the text stays as it was.
pub fn copied_as(outcome: Outcome, text: &[u8], buffer: &mut [u8], wanted: &mut usize) -> Outcome
    ensures { IsCopied text.now outcome result buffer.old buffer.new wanted.new }
{
    if copy_text(text, buffer, wanted) {
        outcome
    } else {
        Outcome::BufferTooShort
    }
}

/// Copies the name of the outcome with this number, as `OutOfMemory`.
///
/// `UnknownNumber` where none has it, `BufferTooShort`: then nothing is copied.
pub fn name_outcome(number: u32, buffer: &mut [u8], wanted: &mut usize) -> Outcome
    ensures { IsNamed number result buffer.old buffer.new wanted.new }
{
    match Outcome::of_number(number) {
        Some(outcome) => copied_as(Outcome::Done, outcome.name().as_bytes(), buffer, wanted),
        None => {
            *wanted = 0;
            Outcome::UnknownNumber
        }
    }
}
