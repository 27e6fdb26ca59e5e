//! A SET and a $GET of a transaction, of which key and value are lent.
ghost use Rattle.std.specs.Prelude.{◌≡◌, [], ◌∷◌, ◌++◌, None, length, unwrap_or, OnOk, OnErr, IfOk, IfErr};
ghost use Rattle.std.specs.FinMap as finmap;
ghost use Rattle.std.specs.Option.{option_copied};
ghost use Rattle.refusal.specs.declared.Refusal.{Refusal as RefusalView};
ghost use Rattle.command.specs.declared.access.DataCommand.TheVariants.{Set as set_command, Look as look_command};
ghost use Rattle.command.specs.declared.access.Look.TheVariants.{Get as get_command};
ghost use Rattle.command.specs.declared.access.Answer.TheVariants.{Done, Value};
ghost use Rattle.read_ranges.specs.Ranges.{IsNoted};

use collation::Text;
use journal::ExchangeLog;
use key_codec::Key;
use read_ranges::Ranges;
use refusal::Refusal;
use std::alloc::{AllocError, Global};
use std::mem;
use workspace::Workspace;

// Keeps a SET with its answer, and puts it into the workspace: both, or nothing. The value is taken out of where it
// lies.
pub(crate) fn keep_set(
    alloc: Global,
    exchanges: &mut ExchangeLog,
    workspace: &mut Workspace,
    key: &Key,
    value: &mut Text,
) -> Result<(), AllocError>
    ensures exchanges { OnOk result (exchanges.new ≡ exchanges.old ++ (record { command = set_command key.now value.old; answer = Done }) ∷ []) }
    ensures written { OnOk result (workspace.new ≡ record workspace.old { written = finmap.insert workspace.old.written key.now value.old }) }
    ensures err { OnErr result (exchanges.new ≡ exchanges.old) }
    ensures unwritten { OnErr result (workspace.new ≡ workspace.old) }
    ensures taken { OnOk result (value.new ≡ []) }
{
    let mark = exchanges.mark();
    exchanges.push_set(key, value.as_slice())?;
    match set_copy(alloc, workspace, key, value) {
        Ok(()) => Ok(()),
        Err(AllocError) => {
            exchanges.back_to(mark);
            Err(AllocError)
        }
    }
}

// Sets a copy of a reference to the value, which is taken out of where it lies.
fn set_copy(
    alloc: Global,
    workspace: &mut Workspace,
    key: &Key,
    value: &mut Text,
) -> Result<(), AllocError>
    ensures written { OnOk result (workspace.new ≡ record workspace.old { written = finmap.insert workspace.old.written key.now value.old }) }
    ensures err { OnErr result (workspace.new ≡ workspace.old) }
    ensures taken { OnOk result (value.new ≡ []) }
{
    let key = key.clone()?;
    let value = mem::replace(value, Text::new(alloc));
    workspace.set(alloc, key, value)
}

// Keeps a $GET with the value that it was answered, and notes what it has read; or nothing of it. Answers how many bytes
// the value has. `decided` tells whether the transaction's own writes decide what the reference has.
pub(crate) fn keep_got(
    exchanges: &mut ExchangeLog,
    ranges: &mut Ranges,
    key: &Key,
    value: &[u8],
    decided: bool,
) -> Result<usize, Refusal>
    ensures exchanges { OnOk result (exchanges.new ≡ exchanges.old ++ (record { command = look_command (get_command key.now None); answer = Value value.now }) ∷ []) }
    ensures ranges { OnOk result (IsNoted ranges.old ranges.new (look_command (get_command key.now None)) (Value value.now) decided) }
    ensures size { IfOk result (λ size. size ≡ length value.now) }
    ensures err { OnErr result (exchanges.new ≡ exchanges.old) }
    ensures unread { OnErr result (ranges.new ≡ ranges.old) }
    ensures memory { IfErr result (λ refusal. refusal ≡ RefusalView.OutOfMemory) }
{
    let mark = exchanges.mark();
    exchanges.push_get(key, value)?;
    match ranges.note_get(key, decided) {
        Ok(()) => Ok(value.len()),
        Err(AllocError) => {
            exchanges.back_to(mark);
            Err(Refusal::OutOfMemory)
        }
    }
}

// As `keep_got`, with the value copied behind these: all of it, or nothing.
pub(crate) fn keep_copied(
    exchanges: &mut ExchangeLog,
    ranges: &mut Ranges,
    key: &Key,
    value: &[u8],
    decided: bool,
    values: &mut Vec<u8>,
) -> Result<usize, Refusal>
    ensures exchanges { OnOk result (exchanges.new ≡ exchanges.old ++ (record { command = look_command (get_command key.now None); answer = Value value.now }) ∷ []) }
    ensures ranges { OnOk result (IsNoted ranges.old ranges.new (look_command (get_command key.now None)) (Value value.now) decided) }
    ensures size { IfOk result (λ size. size ≡ length value.now) }
    ensures err { OnErr result (exchanges.new ≡ exchanges.old) }
    ensures unread { OnErr result (ranges.new ≡ ranges.old) }
    ensures memory { IfErr result (λ refusal. refusal ≡ RefusalView.OutOfMemory) }
    ensures copied { OnOk result (values.new.items ≡ values.old.items ++ value.now) }
    ensures uncopied { OnErr result (values.new.items ≡ values.old.items) }
{
    let before = values.len();
    values.extend_from_slice(value)?;
    match keep_got(exchanges, ranges, key, value, decided) {
        Ok(size) => Ok(size),
        Err(refusal) => {
            values.truncate(before);
            Err(refusal)
        }
    }
}

// The bytes of a value, and none where there is none.
pub(crate) fn bytes_of(found: Option<&Text>) -> &[u8]
    ensures { result.now ≡ unwrap_or (option_copied found.entry) [] }
{
    match found {
        Some(value) => value.as_slice(),
        None => &[],
    }
}
