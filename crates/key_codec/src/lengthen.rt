//! The key of the form in use, from an old key.
ghost use Rattle.std.specs.Prelude.{◌≡◌, ◌<◌, ◌++◌, IfOk, OnOk};
ghost use Rattle.key_codec.specs.Short.{after_tag as after_tag_spec, next_stage as next_stage_spec, new_bytes, lengthened};

use crate::write::push_word;
use crate::{ABOVE_ZERO, BELOW_ZERO, END, END_ABOVE_ZERO, END_BELOW_ZERO, ZERO};
use std::alloc::{AllocError, Global};

// What is read next of an old key: a subscript's first byte; the byte of a place, which digits up to an end follow; or
// bytes up to an end.
#[derive(Clone, Copy)]
pub(crate) enum Stage {
    Tag,
    Place(u8),
    Before(u8),
}

fn after_tag(tag: u8) -> Stage
    ensures { result ≡ after_tag_spec tag }
{
    match tag {
        BELOW_ZERO => Stage::Place(END_BELOW_ZERO),
        ABOVE_ZERO => Stage::Place(END_ABOVE_ZERO),
        ZERO => Stage::Tag,
        _ => Stage::Before(END),
    }
}

fn next_stage(stage: Stage, byte: u8) -> Stage
    ensures { result ≡ next_stage_spec stage byte }
{
    match stage {
        Stage::Tag => after_tag(byte),
        Stage::Place(end) => Stage::Before(end),
        Stage::Before(end) => {
            if byte == end {
                Stage::Tag
            } else {
                Stage::Before(end)
            }
        }
    }
}

// Writes what stands for a byte at the end of `key`.
fn push_new(key: &mut Vec<u8>, stage: Stage, byte: u8) -> Result<(), AllocError>
    ensures { OnOk result (key.new.items ≡ key.old.items ++ new_bytes stage byte) }
{
    match stage {
        Stage::Place(_) => push_word(key, byte as usize + 128),
        _ => {
            key.push(byte)?;
            Ok(())
        }
    }
}

// The bytes of the form in use that stand for an old key.
pub(crate) fn lengthen(alloc: Global, bytes: &[u8]) -> Result<Vec<u8>, AllocError>
    ensures { IfOk result (λ key. key.items ≡ lengthened bytes.now) }
{
    let mut key = Vec::new(alloc);
    let mut stage = Stage::Before(END);
    for byte in bytes {
        push_new(&mut key, stage, *byte)?;
        stage = next_stage(stage, *byte);
    }
    Ok(key)
}
