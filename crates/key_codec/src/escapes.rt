//! A text from its escaped bytes.
ghost use Rattle.std.specs.Prelude.{◌≡◌, ◌<◌, ◌++◌, ◌∷◌, ℕ, List, [], IfNone, IfOk, IfSome, MatchOption, OnOk, length};
ghost use Rattle.key_codec.specs.Grown.{GoesOnFrom};
ghost use Rattle.key_codec.specs.Key.{escape, escaped};
ghost use Rattle.key_codec.specs.Back.{unescaped};

use std::alloc::{AllocError, Global};

// The text with these escaped bytes.
pub(crate) fn unescape(alloc: Global, bytes: &[u8]) -> Result<Option<Vec<u8>>, AllocError>
    ensures some { IfOk result (λ found. IfSome found (λ text. escaped text.items ≡ bytes.now)) }
    ensures none { IfOk result (λ found. IfNone found ((t : List ℕ) → bytes.now ≡ escaped t → ⊥)) }
{
    let mut text = Vec::new(alloc);
    let mut rest = bytes;
    while !rest.is_empty() {
        let Some((byte, more)) = next_byte(rest) else {
            return Ok(None);
        };
        text.push(byte)?;
        rest = more;
    }
    Ok(Some(text))
}

// Writes the text with these escaped bytes at the end of `out`.
pub(crate) fn push_unescaped(out: &mut Vec<u8>, bytes: &[u8]) -> Result<(), AllocError>
    ensures ok { OnOk result (out.new.items ≡ out.old.items ++ unescaped bytes.now) }
    ensures kept { GoesOnFrom out.old.items out.new.items }
{
    let mut rest = bytes;
    while let Some((byte, more)) = next_unescaped(rest) {
        out.push(byte)?;
        rest = more;
    }
    Ok(())
}

// The first byte of the text with these escaped bytes, and what follows its escape.
fn next_unescaped(bytes: &[u8]) -> Option<(u8, &[u8])>
    ensures { MatchOption result (bytes.now ≡ []) (λ p. (unescaped bytes.now ≡ p.0 ∷ unescaped p.1.now) × (length p.1.now < length bytes.now)) }
{
    match bytes {
        [] => None,
        [1, second, rest @ ..] => Some((second.saturating_sub(1), rest)),
        [first, rest @ ..] => Some((*first, rest)),
    }
}

// The byte whose escape stands in front, and what follows it.
fn next_byte(bytes: &[u8]) -> Option<(u8, &[u8])>
    ensures some { IfSome result (λ p. bytes.now ≡ escape p.0 ++ p.1.now) }
    ensures shorter { IfSome result (λ p. length p.1.now < length bytes.now) }
    ensures none { IfNone result ((b : ℕ) (u : List ℕ) → bytes.now ≡ escape b ++ u → ⊥) }
{
    let [first, rest @ ..] = bytes else {
        return None;
    };
    match *first {
        0 => None,
        1 => next_escaped(rest),
        byte => Some((byte, rest)),
    }
}

// The byte whose escape goes on here, after its byte 1, and what follows it.
fn next_escaped(bytes: &[u8]) -> Option<(u8, &[u8])>
    ensures some { IfSome result (λ p. 1 ∷ bytes.now ≡ escape p.0 ++ p.1.now) }
    ensures shorter { IfSome result (λ p. length p.1.now < length bytes.now) }
    ensures none { IfNone result ((b : ℕ) (u : List ℕ) → 1 ∷ bytes.now ≡ escape b ++ u → ⊥) }
{
    let [second, rest @ ..] = bytes else {
        return None;
    };
    match *second {
        1 => Some((0, rest)),
        2 => Some((1, rest)),
        _ => None,
    }
}
