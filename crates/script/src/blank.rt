//! Blanks: one or more bytes 32 or 9.
ghost use Rattle.std.specs.Prelude.{◌≡◌, ◌≤◌, length, drop};
ghost use Rattle.std.specs.List.{position};
ghost use Rattle.m_text.specs.Reading.{GivesExactly};
ghost use Rattle.script.specs.Commands as commands;

use refusal::Refusal;

fn is_blank(byte: u8) -> bool
    ensures { result ≡ commands.is_blank byte }
{
    byte == b' ' || byte == b'\t'
}

fn blank_end(text: &[u8]) -> Option<usize>
    ensures { result ≡ position commands.ends_blank text.now }
{
    text.iter().position(|byte| !is_blank(*byte))
}

// What follows the bytes 32 and 9 at the front.
pub(crate) fn past_blank(text: &[u8]) -> &[u8]
    ensures { result.now ≡ commands.past_blank text.now }
{
    match blank_end(text) {
        Some(n) => split_back(text, n),
        None => split_back(text, text.len()),
    }
}

fn split_back(text: &[u8], n: usize) -> &[u8]
    requires { n ≤ length text.now }
    ensures { result.now ≡ drop n text.now }
{
    let (_, rest) = text.split_at(n);
    rest
}

pub(crate) fn begins_blank(text: &[u8]) -> bool
    ensures { result ≡ commands.begins_blank text.now }
{
    match text {
        [] => false,
        [first, ..] => is_blank(*first),
    }
}

// What follows a blank.
pub(crate) fn skip_blank(text: &[u8]) -> Result<&[u8], Refusal>
    ensures { GivesExactly (λ rest. rest.now) result (commands.blank_at text.now) }
{
    if begins_blank(text) {
        Ok(past_blank(text))
    } else {
        Err(Refusal::BadLine)
    }
}
