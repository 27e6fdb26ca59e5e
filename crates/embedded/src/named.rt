//! The next name of a global.
ghost use Rattle.std.specs.Prelude.{◌≡◌, true, false, [], None, IfErr, IfOk};
ghost use Rattle.std.specs.Option.{MatchOption, option_copied, option_map};
ghost use Rattle.collation.specs.Answers.{is_forward};
ghost use Rattle.key_codec.specs.Draft.{IsDueOrMemory, reference_due};
ghost use Rattle.embedded.specs.Calls.{IsLeft};
ghost use Rattle.embedded.specs.Moments.{database_at, unseen};
ghost use Rattle.embedded.specs.Names.{bare, greatest_name, name_next, sought_name, IsName, IsNameAt};
ghost use Rattle.globals.specs.Cuts.{next_to};

use crate::copied::copied_as;
use crate::moments::seen;
use crate::{Embedded, Outcome};
use collation::Direction;
use globals::{Cut, OrderedView};
use key_codec::{Key, KeyDraft};
use refusal::Refusal;
use std::alloc::Global;

// No name comes after this one, of 31 bytes.
const GREATEST_NAME: &[u8] = b"zzzzzzzzzzzzzzzzzzzzzzzzzzzzzzz";

// The name by which an empty start is sought.
fn sought(start: &[u8]) -> &[u8]
    ensures { result.now ≡ sought_name start.now }
{
    if start.is_empty() {
        GREATEST_NAME
    } else {
        start
    }
}

// The key of a name alone.
fn key_of_name(alloc: Global, name: &[u8]) -> Result<Key, Refusal>
    ensures ok { IfOk result (λ key. (reference_due (bare name.now) ≡ None) × (key ≡ bare name.now)) }
    ensures err { IfErr result (λ refusal. IsDueOrMemory refusal (reference_due (bare name.now))) }
{
    let mut draft = KeyDraft::new(alloc);
    draft.begin(name)?;
    draft.key(alloc)
}

// The first member from a cut on.
fn first_from<'v, V: OrderedView>(view: &'v V, cut: Cut<'_>) -> Option<&'v Key>
    ensures { option_copied result ≡ option_map (λ e. e.0) (next_to true cut.entry (V.content view.now)) }
{
    match view.next(cut, None) {
        Some((key, _)) => Some(key),
        None => None,
    }
}

// The last member before a cut.
fn last_before<'v, V: OrderedView>(view: &'v V, cut: Cut<'_>) -> Option<&'v Key>
    ensures { option_copied result ≡ option_map (λ e. e.0) (next_to false cut.entry (V.content view.now)) }
{
    match view.prev(cut, None) {
        Some((key, _)) => Some(key),
        None => None,
    }
}

// The last member, by the key of the greatest name.
fn last_member<'v, V: OrderedView>(view: &'v V, greatest: &Key) -> Option<&'v Key>
    requires { greatest.now ≡ bare greatest_name }
    ensures { option_map (λ r. r.name) (option_copied result) ≡ name_next false [] (V.content view.now) }
{
    match view.next(Cut::Past(greatest), None) {
        Some((key, _)) => {
            let _form = key.as_slice();
            unreachable!()
        }
        None => last_before(view, Cut::Past(greatest)),
    }
}

// A member of the nearest name beyond a start, by the key of that name, or of the greatest where the start is empty.
fn member_beyond<'v, V: OrderedView>(
    view: &'v V,
    start: &[u8],
    at: &Key,
    direction: Direction,
) -> Option<&'v Key>
    requires { at.now ≡ bare (sought_name start.now) }
    ensures { option_map (λ r. r.name) (option_copied result) ≡ name_next (is_forward direction) start.now (V.content view.now) }
{
    match direction {
        Direction::Forward => {
            if start.is_empty() {
                first_from(view, Cut::Start)
            } else {
                first_from(view, Cut::Past(at))
            }
        }
        Direction::Backward => {
            if start.is_empty() {
                last_member(view, at)
            } else {
                last_before(view, Cut::Before(at))
            }
        }
    }
}

// Copies the nearest name of a view's members beyond a start.
fn copy_next_name<V: OrderedView>(
    view: &V,
    start: &[u8],
    at: &Key,
    direction: Direction,
    buffer: &mut [u8],
    wanted: &mut usize,
) -> Outcome
    requires { at.now ≡ bare (sought_name start.now) }
    ensures { IsName start.now direction (V.content view.now) result buffer.old buffer.new wanted.new }
{
    *wanted = 0;
    match member_beyond(view, start, at, direction) {
        Some(key) => copied_as(Outcome::Done, key.name(), buffer, wanted),
        None => Outcome::AtEnd,
    }
}

impl Embedded {
    // Copies the nearest name beyond a start in the database of a moment.
    fn copy_name_from(
        &self,
        moment: u64,
        start: &[u8],
        at: &Key,
        direction: Direction,
        buffer: &mut [u8],
        wanted: &mut usize,
    ) -> Outcome
        requires { at.now ≡ bare (sought_name start.now) }
        ensures { MatchOption (database_at moment self.now.core.machine) (IsLeft (Outcome.Refused (unseen moment)) result buffer.old buffer.new wanted.new)
            (λ m. IsName start.now direction m result buffer.old buffer.new wanted.new) }
    {
        match seen(&self.core, moment) {
            Ok(view) => copy_next_name(&view, start, at, direction, buffer, wanted),
            Err(refusal) => {
                *wanted = 0;
                Outcome::Refused(refusal)
            }
        }
    }

    /// Copies the next name after `start`, or backward the one before it, that a node has in the database of a moment,
    /// without its caret, and tells how long it is, at most 31. No node need have `start`; an empty one asks for the
    /// first, backward for the last. It is no command, as `look`.
    ///
    /// `AtEnd` where no name is left; `BadName` where `start` is neither empty nor a name; `OutOfMemory`,
    /// `BufferTooShort`; `BadJob` and `NoTransaction` as `look`: then nothing is copied.
    pub fn look_name(
        &self,
        alloc: Global,
        moment: u64,
        start: &[u8],
        direction: Direction,
        buffer: &mut [u8],
        wanted: &mut usize,
    ) -> Outcome
        ensures { IsNameAt moment self.now.core.machine start.now direction result buffer.old buffer.new wanted.new }
    {
        match key_of_name(alloc, sought(start)) {
            Ok(at) => self.copy_name_from(moment, start, &at, direction, buffer, wanted),
            Err(refusal) => {
                *wanted = 0;
                Outcome::Refused(refusal)
            }
        }
    }
}
