//! Keys of names and subscripts.
ghost use Rattle.std.specs.Prelude.{◌≡◌, ◌-◌, ◌^◌, [], None, true, if◌then◌else◌, min, length, IfErr, IfOk, OnOk};
ghost use Rattle.collation.specs.Name.{is_name as is_name_spec};
ghost use Rattle.key_codec.specs.Draft.{IsDueOrMemory, longer, place_of, reference_due};
ghost use Rattle.typed_calls.specs.Commands.{below_fault};
ghost use Rattle.typed_calls.specs.Spelled.{due_in_turn, texts_of};
ghost use Rattle.typed_calls.specs.Typed.{IsPlaceCause, IsWithin};

use canonic_number::LONGEST_SUBSCRIPT;
use collation::{MOST_SUBSCRIPTS, Text, is_name};
use key_codec::{Key, KeyDraft, Place};
use refusal::Refusal;
use std::alloc::Global;

/// The key of a name alone.
///
/// Refusals: `BadName`; `OutOfMemory`.
pub fn key_of_name(alloc: Global, name: &[u8]) -> Result<Key, Refusal>
    ensures ok { IfOk result (λ key. (reference_due (record { name = name.now; subscripts = [] }) ≡ None) × (key ≡ record { name = name.now; subscripts = [] })) }
    ensures err { IfErr result (λ refusal. IsDueOrMemory refusal (reference_due (record { name = name.now; subscripts = [] }))) }
{
    let mut draft = KeyDraft::new(alloc);
    draft.begin(name)?;
    draft.key(alloc)
}

// How many subscripts a key has. The count saturates at 2^64 - 1.
fn depth_of(key: &Key) -> u64
    ensures { result ≡ min (length key.now.subscripts) (2 ^ 64 - 1) }
{
    let mut depth: u64 = 0;
    'subscripts: for _subscript in key.subscripts() {
        depth = depth.saturating_add(1);
    }
    depth
}

// Why a key with so many subscripts gets no further one, or none with these bytes.
fn fault_below(depth: u64, subscript: &[u8]) -> Option<Refusal>
    ensures { result ≡ below_fault depth subscript.now }
{
    if depth >= MOST_SUBSCRIPTS as u64 {
        Some(Refusal::TooManySubscripts)
    } else if subscript.is_empty() {
        Some(Refusal::EmptySubscript)
    } else if subscript.len() > LONGEST_SUBSCRIPT {
        Some(Refusal::SubscriptTooLong)
    } else {
        None
    }
}

/// A text that is lent: for C a pointer and a length.
#[repr(C)]
#[derive(Clone, Copy, Debug)]
pub struct LentText<'t> {
    /// Its bytes.
    pub bytes: &'t [u8],
}

// The refusal of a name, else this one of a subscript behind it.
fn name_fault_or(name: &[u8], fault: Refusal) -> Refusal
    ensures { result ≡ (if is_name_spec name.now then fault else Refusal.BadName) }
{
    if is_name(name) {
        fault
    } else {
        Refusal::BadName
    }
}

/// The key of a name and subscripts, spelled in a draft, which serves for the next one too. Takes memory only where
/// the draft has to grow, or the key has over 38 bytes.
///
/// Refusals: the first that `key_of_name`, and then `key_below` for one subscript after the other, would tell;
/// `OutOfMemory`.
pub fn spell_key(
    alloc: Global,
    draft: &mut KeyDraft,
    name: &[u8],
    subscripts: &[LentText<'_>],
) -> Result<Key, Refusal>
    ensures ok { IfOk result (λ key. (due_in_turn (record { name = name.now; subscripts = [] }) (texts_of subscripts.now) ≡ None) × (key ≡ record { name = name.now; subscripts = texts_of subscripts.now })) }
    ensures err { IfErr result (λ refusal. IsDueOrMemory refusal (due_in_turn (record { name = name.now; subscripts = [] }) (texts_of subscripts.now))) }
{
    draft.begin(name)?;
    let mut depth: u64 = 0;
    for text in subscripts {
        if let Some(fault) = fault_below(depth, text.bytes) {
            return Err(name_fault_or(name, fault));
        }
        draft.push(text.bytes)?;
        depth += 1;
    }
    draft.key(alloc)
}

/// The key one level below this one, by this subscript.
///
/// Refusals, in this order: `TooManySubscripts` over 31; `EmptySubscript`; `SubscriptTooLong` over 255 bytes;
/// `OutOfMemory`.
pub fn key_below(alloc: Global, key: &Key, subscript: &[u8]) -> Result<Key, Refusal>
    ensures ok { IfOk result (λ below. below ≡ longer key.now subscript.now) }
    ensures due { OnOk result (reference_due (longer key.now subscript.now) ≡ None) }
    ensures err { IfErr result (λ refusal. IsDueOrMemory refusal (reference_due (longer key.now subscript.now))) }
{
    let _form = key.as_slice();
    if let Some(fault) = fault_below(depth_of(key), subscript) {
        return Err(fault);
    }
    let text = Text::from_slice(alloc, subscript)?;
    let below = key.below(alloc, &text)?;
    Ok(below)
}

// The open place below a key: an empty subscript follows.
#[tactic(auto, using(crate::proofs::Below::open_due))]
pub(crate) fn open_below(key: &Key) -> Result<Place, Refusal>
    ensures ok { IfOk result (λ place. place ≡ record { reference = key.now; is_open = true }) }
    ensures within { OnOk result (IsWithin (λ refusal. IsPlaceCause key.now [] refusal)) }
    ensures err { IfErr result (λ refusal. IsPlaceCause key.now [] refusal) }
{
    let _form = key.as_slice();
    if depth_of(key) >= MOST_SUBSCRIPTS as u64 {
        return Err(Refusal::TooManySubscripts);
    }
    let key = key.clone()?;
    Ok(Place::new(key, true))
}

/// The place one level below a key, at this subscript; it is open where that is empty.
///
/// Refusals, in this order: `TooManySubscripts` over 31, an empty one among them; `SubscriptTooLong` over 255 bytes;
/// `OutOfMemory`.
#[tactic(auto, using(crate::proofs::Below::closed_place, crate::proofs::Below::closed_due))]
pub fn place_below(alloc: Global, key: &Key, subscript: &[u8]) -> Result<Place, Refusal>
    ensures ok { IfOk result (λ place. place ≡ place_of (longer key.now subscript.now)) }
    ensures within { OnOk result (IsWithin (λ refusal. IsPlaceCause key.now subscript.now refusal)) }
    ensures err { IfErr result (λ refusal. IsPlaceCause key.now subscript.now refusal) }
{
    if subscript.is_empty() {
        return open_below(key);
    }
    match key_below(alloc, key, subscript) {
        Ok(below) => Ok(Place::new(below, false)),
        Err(refusal) => Err(refusal),
    }
}
