//! Looks at the database of a moment, which are no commands: one value, or many nodes at a time.
ghost use Rattle.std.specs.Prelude.{◌≡◌, ◌≤◌, ◌<◌, ◌++◌, ◌||◌, [], true, None, Some, if◌then◌else◌, IfOk, OnErr, OnOk, length};
ghost use Rattle.std.specs.Option.{MatchOption, option_map};
ghost use Rattle.collation.specs.Reference.{Reference};
ghost use Rattle.globals.specs.Cuts.{stands_before as before_cut, stands_within};
ghost use Rattle.embedded.specs.Calls.{fits, is_listed, IsCopied};
ghost use Rattle.embedded.specs.Gathered.{is_before_root, IsGathered, IsTaken};
ghost use Rattle.embedded.specs.Looks.{is_within, nodes_left, record_of, IsLook, IsLookAt, IsWalkCall, IsWalked};

use crate::copied::{copied_as, copy_text};
use crate::moments::seen;
use crate::{Embedded, Outcome};
use collation::Text;
use globals::{Cut, OrderedView, Walk, stands_before, walk_between};
use key_codec::Key;
use refusal::Refusal;
use std::alloc::{AllocError, Global};

// Whether a key is at or under the root, where there is one.
fn is_inside(key: &Key, root: &Option<Box<Key>>) -> bool
    ensures { result ≡ is_within (option_map (λ b. b.value) root.now) key.now }
{
    match root {
        Some(root) => key.is_under(root),
        None => true,
    }
}

// Where a walk within a root begins that goes on behind a place.
fn start_of<'k>(root: &'k Option<Box<Key>>, place: &'k Option<Box<Key>>) -> Cut<'k>
    ensures { (x : Reference) → before_cut result x ≡ (is_before_root (option_map (λ b. b.value) root.now) x || is_listed (option_map (λ b. b.value) place.now) x) }
{
    match (root, place) {
        (None, None) => Cut::Start,
        (None, Some(place)) => Cut::After(place),
        (Some(root), None) => Cut::Before(root),
        (Some(root), Some(place)) => {
            if stands_before(Cut::Before(root), place) {
                Cut::Before(root)
            } else {
                Cut::After(place)
            }
        }
    }
}

// Where a walk within a root ends, so that nothing behind is asked for.
fn end_of<'k>(root: &'k Option<Box<Key>>) -> Option<Cut<'k>>
    ensures { (x : Reference) → is_within (option_map (λ b. b.value) root.now) x ≡ true → stands_within result x ≡ true }
{
    match root {
        Some(root) => Some(Cut::Past(root)),
        None => None,
    }
}

// A node's record at the end of `text`.
fn push_record(key: &Key, value: &Text, text: &mut Vec<u8>) -> Result<(), AllocError>
    ensures { OnOk result (text.new.items ≡ text.old.items ++ record_of (key.now, value.now)) }
{
    let key = key.as_slice();
    let value = value.as_slice();
    text.extend_from_slice(&(key.len() as u64).to_le_bytes())?;
    text.extend_from_slice(&(value.len() as u64).to_le_bytes())?;
    text.extend_from_slice(key)?;
    text.extend_from_slice(value)?;
    Ok(())
}

// The records of the nodes that are left, as many as there is room for, behind what stands in `text`; and the last of
// their keys, or this one, where there is none.
fn push_fitting<'v, V: OrderedView>(
    walk: Walk<'v, V>,
    root: &Option<Box<Key>>,
    first: &'v Key,
    room: usize,
    text: &mut Vec<u8>,
) -> Result<&'v Key, AllocError>
    requires { length text.old.items ≤ room }
    ensures { IfOk result (λ last. IsTaken (option_map (λ b. b.value) root.now) room walk.entry first.now last.now text.old.items text.new.items) }
{
    let mut last = first;
    'nodes: for (key, value) in walk {
        if !is_inside(key, root) {
            return Ok(last);
        }
        let before = text.len();
        push_record(key, value, text)?;
        if text.len() > room {
            text.truncate(before);
            return Ok(last);
        }
        last = key;
    }
    Ok(last)
}

// The records of the next nodes in the place of what stands in `text`, and the last of their keys.
fn gather_nodes<'v, V: OrderedView>(
    view: &'v V,
    root: &'v Option<Box<Key>>,
    place: &'v Option<Box<Key>>,
    room: usize,
    text: &mut Vec<u8>,
) -> Result<Option<&'v Key>, AllocError>
    ensures ok { IfOk result (λ found. MatchOption found (nodes_left (option_map (λ b. b.value) root.now) (option_map (λ b. b.value) place.now) (V.content view.now) ≡ [])
        (λ last. IsGathered room (nodes_left (option_map (λ b. b.value) root.now) (option_map (λ b. b.value) place.now) (V.content view.now)) last.now text.new.items)) }
    ensures err { OnErr result (0 < length (nodes_left (option_map (λ b. b.value) root.now) (option_map (λ b. b.value) place.now) (V.content view.now))) }
{
    text.clear();
    let mut walk = walk_between(view, start_of(root, place), end_of(root));
    let Some((key, value)) = walk.next() else {
        return Ok(None);
    };
    if !is_inside(key, root) {
        return Ok(None);
    }
    push_record(key, value, text)?;
    if text.len() > room {
        return Ok(Some(key));
    }
    match push_fitting(walk, root, key, room, text) {
        Ok(last) => Ok(Some(last)),
        Err(error) => Err(error),
    }
}

// A copy of a key in memory of its own.
fn boxed_copy(alloc: Global, key: &Key) -> Result<Box<Key>, AllocError>
    ensures { IfOk result (λ b. b.value ≡ key.now) }
{
    let copy = key.clone()?;
    let moved = Box::new(alloc, copy)?;
    Ok(moved)
}

// Those records, and a copy of the key.
fn gather_boxed<V: OrderedView>(
    alloc: Global,
    view: &V,
    root: &Option<Box<Key>>,
    place: &Option<Box<Key>>,
    room: usize,
    text: &mut Vec<u8>,
) -> Result<Option<Box<Key>>, AllocError>
    ensures ok { IfOk result (λ found. MatchOption found (nodes_left (option_map (λ b. b.value) root.now) (option_map (λ b. b.value) place.now) (V.content view.now) ≡ [])
        (λ b. IsGathered room (nodes_left (option_map (λ b. b.value) root.now) (option_map (λ b. b.value) place.now) (V.content view.now)) b.value text.new.items)) }
    ensures err { OnErr result (0 < length (nodes_left (option_map (λ b. b.value) root.now) (option_map (λ b. b.value) place.now) (V.content view.now))) }
{
    match gather_nodes(view, root, place, room, text) {
        Ok(Some(last)) => {
            let moved = boxed_copy(alloc, last)?;
            Ok(Some(moved))
        }
        Ok(None) => Ok(None),
        Err(error) => Err(error),
    }
}

// Copies records, and moves the place where they fit.
fn copy_records(
    moved: Box<Key>,
    place: &mut Option<Box<Key>>,
    text: &[u8],
    buffer: &mut [u8],
    wanted: &mut usize,
) -> Outcome
    ensures copied { IsCopied text.now Outcome.Done result buffer.old buffer.new wanted.new }
    ensures place { option_map (λ b. b.value) place.new ≡ (if fits text.now buffer.old then Some moved.value else option_map (λ b. b.value) place.old) }
{
    if copy_text(text, buffer, wanted) {
        *place = Some(moved);
        Outcome::Done
    } else {
        drop(moved);
        Outcome::BufferTooShort
    }
}

/// Copies the value that a view has at a key, and tells how long it is.
///
/// `NoValue` where it has none, `BufferTooShort`: then nothing is copied.
pub fn copy_value<V: OrderedView>(
    view: &V,
    key: &Key,
    buffer: &mut [u8],
    wanted: &mut usize,
) -> Outcome
    ensures { IsLook (V.content view.now) key.now result buffer.old buffer.new wanted.new }
{
    *wanted = 0;
    match view.get(key) {
        Some(value) => copied_as(Outcome::Done, value.as_slice(), buffer, wanted),
        None => Outcome::NoValue,
    }
}

/// Copies the next nodes of a walk over a view, as many as the buffer has room for, and moves its place.
///
/// `AtEnd` where no node is left; `BufferTooShort` where the next alone is longer than the buffer; `OutOfMemory`: then
/// nothing is copied, and the place stays.
pub fn copy_walked<V: OrderedView>(
    alloc: Global,
    view: &V,
    root: &Option<Box<Key>>,
    place: &mut Option<Box<Key>>,
    text: &mut Vec<u8>,
    buffer: &mut [u8],
    wanted: &mut usize,
) -> Outcome
    ensures { IsWalked (nodes_left (option_map (λ b. b.value) root.now) (option_map (λ b. b.value) place.old) (V.content view.now)) (option_map (λ b. b.value) place.old) (option_map (λ b. b.value) place.new) result buffer.old buffer.new wanted.new }
{
    *wanted = 0;
    match gather_boxed(alloc, view, root, place, buffer.len(), text) {
        Ok(Some(moved)) => copy_records(moved, place, text, buffer, wanted),
        Ok(None) => Outcome::AtEnd,
        Err(_) => Outcome::Refused(Refusal::OutOfMemory),
    }
}

impl Embedded {
    /// Copies the value that the reference has in the database of a moment, and tells how long it is. At 0 the moment
    /// is now, at a job's number that at which the job's open transaction began: what is seen then is as it was,
    /// whatever was done since, and lacks what the transaction does itself. It is no command: the journal gets no unit,
    /// and the last reply stays.
    ///
    /// `NoValue` where it has none, `BufferTooShort` where the buffer is shorter than the value; `BadJob` where the
    /// moment is over 4,096, `NoTransaction` where that job has no open transaction: then nothing is copied.
    pub fn look(&self, moment: u64, key: &Key, buffer: &mut [u8], wanted: &mut usize) -> Outcome
        ensures { IsLookAt moment self.now.core.machine key.now result buffer.old buffer.new wanted.new }
    {
        match seen(&self.core, moment) {
            Ok(view) => copy_value(&view, key, buffer, wanted),
            Err(refusal) => {
                *wanted = 0;
                Outcome::Refused(refusal)
            }
        }
    }

    /// Copies the next nodes of a walk over the database of a moment, as many as the buffer has room for, and tells
    /// how long their records are together. The walk goes over what is at and under `root`, or over all where that is
    /// none, from behind `place` on, or from the first where that is none; and `place` moves to the last node copied.
    /// Both are in boxes, as C keeps keys. It is no command, as `look`.
    ///
    /// `AtEnd` where no node is left; `BufferTooShort` where the next alone is longer than the buffer, and then its
    /// length is told; `OutOfMemory`; `BadJob` and `NoTransaction` as `look`: then nothing is copied, and `place`
    /// stays.
    pub fn copy_nodes(
        &mut self,
        alloc: Global,
        moment: u64,
        root: &Option<Box<Key>>,
        place: &mut Option<Box<Key>>,
        buffer: &mut [u8],
        wanted: &mut usize,
    ) -> Outcome
        ensures { IsWalkCall moment (option_map (λ b. b.value) root.now) (option_map (λ b. b.value) place.old) (option_map (λ b. b.value) place.new) self.old self.new result buffer.old buffer.new wanted.new }
    {
        match seen(&self.core, moment) {
            Ok(view) => copy_walked(alloc, &view, root, place, &mut self.text, buffer, wanted),
            Err(refusal) => {
                *wanted = 0;
                Outcome::Refused(refusal)
            }
        }
    }
}
