//! Data commands as text.
ghost use Rattle.std.specs.Prelude.{◌≡◌, ◌++◌, ◌∷◌, [], ℕ, List, nat_lt, length, OnOk};
ghost use Rattle.collation.specs.Bytes as byte;
ghost use Rattle.collation.specs.Reference.{Reference};
ghost use Rattle.key_codec.specs.Grown.{GoesOnFrom};
ghost use Rattle.m_text.specs.Written.{literal_text, reference_text};
ghost use Rattle.journal_lines.specs.Steps as steps;

use collation::{Direction, Name, Text};
use command::{DataCommand, Extent, Look};
use key_codec::{Key, Place};
use m_text::{write_key, write_literal};
use std::alloc::AllocError;

fn has_subscripts(key: &Key) -> bool
    ensures { result ≡ nat_lt 0 (length key.now.subscripts) }
{
    key.subscripts().next().is_some()
}

// Takes the last byte away.
fn drop_last(out: &mut Vec<u8>)
    ensures { (front : List ℕ) (last : ℕ) → out.old.items ≡ front ++ last ∷ [] → out.new.items ≡ front }
{
    let end = out.len().saturating_sub(1);
    out.truncate(end);
}

// The reference of a key with an empty subscript after its own.
fn write_opened(key: &Key, out: &mut Vec<u8>) -> Result<(), AllocError>
    ensures ok { OnOk result (out.new.items ≡ out.old.items ++ reference_text (steps.opened key.now)) }
    ensures kept { GoesOnFrom out.old.items out.new.items }
{
    write_key(key, out)?;
    if has_subscripts(key) {
        drop_last(out);
        out.extend_from_slice(b",\"\")")
    } else {
        out.extend_from_slice(b"(\"\")")
    }
}

fn write_place(place: &Place, out: &mut Vec<u8>) -> Result<(), AllocError>
    ensures ok { OnOk result (out.new.items ≡ out.old.items ++ reference_text (steps.asked_reference place.now)) }
    ensures kept { GoesOnFrom out.old.items out.new.items }
{
    if place.is_open() {
        write_opened(place.key(), out)
    } else {
        write_key(place.key(), out)?;
        Ok(())
    }
}

fn write_default(default: &Option<Text>, out: &mut Vec<u8>) -> Result<(), AllocError>
    ensures ok { OnOk result (out.new.items ≡ out.old.items ++ steps.default_text default.now) }
    ensures kept { GoesOnFrom out.old.items out.new.items }
{
    match default {
        Some(value) => {
            out.push(b',')?;
            write_literal(value.as_slice(), out)?;
            Ok(())
        }
        None => Ok(()),
    }
}

fn write_direction(direction: Direction, out: &mut Vec<u8>) -> Result<(), AllocError>
    ensures ok { OnOk result (out.new.items ≡ out.old.items ++ steps.direction_text direction) }
    ensures kept { GoesOnFrom out.old.items out.new.items }
{
    match direction {
        Direction::Forward => Ok(()),
        Direction::Backward => out.extend_from_slice(b",-1"),
    }
}

// A function of a place, with its opening parenthesis, and what stands in these.
fn write_walk(
    front: &[u8],
    place: &Place,
    direction: Direction,
    out: &mut Vec<u8>,
) -> Result<(), AllocError>
    ensures ok { OnOk result (out.new.items ≡ out.old.items ++ (front.now ++ (reference_text (steps.asked_reference place.now) ++ (steps.direction_text direction ++ byte.closing ∷ [])))) }
    ensures kept { GoesOnFrom out.old.items out.new.items }
{
    out.extend_from_slice(front)?;
    write_place(place, out)?;
    write_direction(direction, out)?;
    out.push(b')')?;
    Ok(())
}

fn write_data(key: &Key, out: &mut Vec<u8>) -> Result<(), AllocError>
    ensures ok { OnOk result (out.new.items ≡ out.old.items ++ steps.look_text (Look.Data key.now)) }
    ensures kept { GoesOnFrom out.old.items out.new.items }
{
    out.extend_from_slice(b"$DATA(")?;
    write_key(key, out)?;
    out.push(b')')?;
    Ok(())
}

fn write_get(key: &Key, default: &Option<Text>, out: &mut Vec<u8>) -> Result<(), AllocError>
    ensures ok { OnOk result (out.new.items ≡ out.old.items ++ steps.look_text (Look.Get key.now default.now)) }
    ensures kept { GoesOnFrom out.old.items out.new.items }
{
    out.extend_from_slice(b"$GET(")?;
    write_key(key, out)?;
    write_default(default, out)?;
    out.push(b')')?;
    Ok(())
}

fn write_look(look: &Look, out: &mut Vec<u8>) -> Result<(), AllocError>
    ensures ok { OnOk result (out.new.items ≡ out.old.items ++ steps.look_text look.now) }
    ensures kept { GoesOnFrom out.old.items out.new.items }
{
    match look {
        Look::Data(key) => write_data(key, out),
        Look::Get(key, default) => write_get(key, default, out),
        Look::Order(place, direction) => write_walk(b"$ORDER(", place, *direction, out),
        Look::Query(place, direction) => write_walk(b"$QUERY(", place, *direction, out),
        Look::Name(start, direction) => write_names(start, *direction, out),
    }
}

// The start of $ORDER of names, as a literal. A name has no quotes.
fn write_start(start: &Option<Name>, out: &mut Vec<u8>) -> Result<(), AllocError>
    ensures ok { OnOk result (out.new.items ≡ out.old.items ++ literal_text (steps.start_text start.now)) }
    ensures kept { GoesOnFrom out.old.items out.new.items }
{
    match start {
        Some(name) => {
            out.extend_from_slice(b"\"^")?;
            out.extend_from_slice(name.as_slice())?;
            out.push(b'"')?;
            Ok(())
        }
        None => out.extend_from_slice(b"\"\""),
    }
}

fn write_names(
    start: &Option<Name>,
    direction: Direction,
    out: &mut Vec<u8>,
) -> Result<(), AllocError>
    ensures ok { OnOk result (out.new.items ≡ out.old.items ++ steps.look_text (Look.Name start.now direction)) }
    ensures kept { GoesOnFrom out.old.items out.new.items }
{
    out.extend_from_slice(b"$ORDER(^$GLOBAL(")?;
    write_start(start, out)?;
    out.push(b')')?;
    write_direction(direction, out)?;
    out.push(b')')?;
    Ok(())
}

fn write_set(key: &Key, value: &Text, out: &mut Vec<u8>) -> Result<(), AllocError>
    ensures ok { OnOk result (out.new.items ≡ out.old.items ++ steps.data_text (DataCommand.Set key.now value.now)) }
    ensures kept { GoesOnFrom out.old.items out.new.items }
{
    out.extend_from_slice(b"SET ")?;
    write_key(key, out)?;
    out.push(b'=')?;
    write_literal(value.as_slice(), out)?;
    Ok(())
}

fn kill_word(extent: Extent) -> &'static [u8]
    ensures { result.now ≡ steps.kill_word extent }
{
    match extent {
        Extent::All => b"KILL ",
        Extent::Value => b"KVALUE ",
        Extent::Below => b"KSUBSCRIPTS ",
    }
}

fn write_kill(key: &Key, extent: Extent, out: &mut Vec<u8>) -> Result<(), AllocError>
    ensures ok { OnOk result (out.new.items ≡ out.old.items ++ steps.data_text (DataCommand.Kill key.now extent)) }
    ensures kept { GoesOnFrom out.old.items out.new.items }
{
    out.extend_from_slice(kill_word(extent))?;
    write_key(key, out)?;
    Ok(())
}

fn write_merge(target: &Key, source: &Key, out: &mut Vec<u8>) -> Result<(), AllocError>
    ensures ok { OnOk result (out.new.items ≡ out.old.items ++ steps.data_text (DataCommand.Merge target.now source.now)) }
    ensures kept { GoesOnFrom out.old.items out.new.items }
{
    out.extend_from_slice(b"MERGE ")?;
    write_key(target, out)?;
    out.push(b'=')?;
    write_key(source, out)?;
    Ok(())
}

fn write_increment(key: &Key, number: &Text, out: &mut Vec<u8>) -> Result<(), AllocError>
    ensures ok { OnOk result (out.new.items ≡ out.old.items ++ steps.data_text (DataCommand.Increment key.now number.now)) }
    ensures kept { GoesOnFrom out.old.items out.new.items }
{
    out.extend_from_slice(b"$INCREMENT(")?;
    write_key(key, out)?;
    out.push(b',')?;
    write_literal(number.as_slice(), out)?;
    out.push(b')')?;
    Ok(())
}

/// Writes a data command at the end of `out`. Where memory is refused, what stood there stands there still.
pub(crate) fn write_access(command: &DataCommand, out: &mut Vec<u8>) -> Result<(), AllocError>
    ensures ok { OnOk result (out.new.items ≡ out.old.items ++ steps.data_text command.now) }
    ensures kept { GoesOnFrom out.old.items out.new.items }
{
    match command {
        DataCommand::Set(key, value) => write_set(key, value, out),
        DataCommand::Kill(key, extent) => write_kill(key, *extent, out),
        DataCommand::Merge(target, source) => write_merge(target, source, out),
        DataCommand::Increment(key, number) => write_increment(key, number, out),
        DataCommand::Look(look) => write_look(look, out),
    }
}
