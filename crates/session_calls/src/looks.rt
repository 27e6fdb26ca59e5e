//! Looks at the database of a moment, which are no commands: as it is now, or as it was when the open transaction began.
ghost use Rattle.std.specs.Prelude.{◌≡◌, Ok, IfOk, IfSome, OnErr};
ghost use Rattle.std.specs.Option.{option_map};
ghost use Rattle.collation.specs.Answers.{data_of};
ghost use Rattle.embedded.specs.Looks.{IsLook as IsValueLook, IsOrder, IsQuery, IsWalked, nodes_left};
ghost use Rattle.session_calls.specs.Looks.{HasNoStart, IsKeptOutAt, IsLook, IsMoment, IsOrderLook, IsQueryLook, IsSeen, IsWalk};

use crate::seat::Seat;
use collation::Direction;
use embedded::{Outcome, copy_sibling, copy_value, copy_walked, move_to_found};
use globals::data;
use hub::{Busy, HubSession, HubShare};
use key_codec::{Key, Place};
use refusal::Refusal;
use std::alloc::Global;
use typed_calls::{place_at, place_below};
use version_store::Snapshot;

// The database of a moment of a session that holds it already (`hold`). None of any other.
fn held_moment(session: &HubSession, at_start: bool) -> Option<Snapshot<'_>>
    ensures { IfSome result (λ view. IsMoment at_start session.now.held session.now.held (Ok view)) }
{
    if at_start {
        if session.tlevel() == 0 {
            return None;
        }
        return match session.held_start() {
            Some(view) => Some(view),
            None => None,
        };
    }
    match session.held_present() {
        Some(view) => Some(view),
        None => None,
    }
}

// The same of a seat's session.
fn held(seat: &Seat, at_start: bool) -> Option<Snapshot<'_>>
    ensures { IfSome result (λ view. IsSeen at_start seat.now seat.now (Ok view)) }
{
    let Some(session) = &seat.session else {
        return None;
    };
    match held_moment(session, at_start) {
        Some(view) => Some(view),
        None => None,
    }
}

// The database of a moment of a session, held for as long as it is looked at; or why there is none.
fn moment(session: &mut HubSession, at_start: bool) -> Result<Result<HubShare, Outcome>, Busy>
    ensures table { session.new.table ≡ session.old.table }
    ensures seen { IfOk result (λ seen. IsMoment at_start session.old.held session.new.held seen) }
    ensures busy { OnErr result ((HasNoStart at_start session.old.held → ⊥) × (session.new ≡ session.old)) }
{
    if !at_start {
        return match session.present() {
            Ok(share) => Ok(Ok(share)),
            Err(Busy) => Err(Busy),
        };
    }
    if session.tlevel() == 0 {
        return Ok(Err(Outcome::Refused(Refusal::NoTransaction)));
    }
    match session.at_start() {
        Ok(share) => Ok(Ok(share)),
        Err(Busy) => Err(Busy),
    }
}

// The same of a seat's session.
fn seen(seat: &mut Seat, at_start: bool) -> Result<Result<HubShare, Outcome>, Busy>
    ensures seen { IfOk result (λ seen. IsSeen at_start seat.old seat.new seen) }
    ensures busy { OnErr result (IsKeptOutAt at_start seat.old seat.new) }
{
    let Some(session) = &mut seat.session else {
        return Ok(Err(Outcome::NoEngine));
    };
    match moment(session, at_start) {
        Ok(Ok(share)) => Ok(Ok(share)),
        Ok(Err(outcome)) => Ok(Err(outcome)),
        Err(Busy) => Err(Busy),
    }
}

// Copies the value that the reference has in it.
fn copy_in(share: &HubShare, key: &Key, buffer: &mut [u8], wanted: &mut usize) -> Outcome
    ensures { IsValueLook share.now key.now result buffer.old buffer.new wanted.new }
{
    copy_value(&share.content(), key, buffer, wanted)
}

/// Copies the value that the reference has at the moment, and tells how long it is.
///
/// Outcomes: as of `embedded::copy_value`; `NoTransaction` where none is open that the moment could be the start of;
/// `NoEngine` where the seat has no session; `Busy` while others write. Then nothing is copied.
pub fn look(
    seat: &mut Seat,
    at_start: bool,
    key: &Key,
    buffer: &mut [u8],
    wanted: &mut usize,
) -> Result<Outcome, Busy>
    ensures { IsLook at_start (λ m outcome. IsValueLook m key.now outcome buffer.old buffer.new wanted.new) ((buffer.new ≡ buffer.old) × (wanted.new ≡ 0)) seat.old seat.new result }
{
    *wanted = 0;
    if let Some(view) = held(seat, at_start) {
        return Ok(copy_value(&view, key, buffer, wanted));
    }
    match seen(seat, at_start) {
        Ok(Ok(share)) => Ok(copy_in(&share, key, buffer, wanted)),
        Ok(Err(outcome)) => Ok(outcome),
        Err(Busy) => Err(Busy),
    }
}

// What $DATA tells in it.
fn data_in(share: &HubShare, key: &Key) -> u64
    ensures { result ≡ data_of key.now share.now }
{
    data(&share.content(), key)
}

/// Tells 1 where the reference has a value at the moment, and 10 more where a descendant has one.
///
/// Outcomes: `NoTransaction`, `NoEngine`, `Busy` as of `look`, and then 0 is told.
pub fn look_data(
    seat: &mut Seat,
    at_start: bool,
    key: &Key,
    number: &mut u64,
) -> Result<Outcome, Busy>
    ensures { IsLook at_start (λ m outcome. (number.new ≡ data_of key.now m) × (outcome ≡ Outcome.Done)) (number.new ≡ 0) seat.old seat.new result }
{
    *number = 0;
    if let Some(view) = held(seat, at_start) {
        *number = data(&view, key);
        return Ok(Outcome::Done);
    }
    match seen(seat, at_start) {
        Ok(Ok(share)) => {
            *number = data_in(&share, key);
            Ok(Outcome::Done)
        }
        Ok(Err(outcome)) => Ok(outcome),
        Err(Busy) => Err(Busy),
    }
}

// Copies the subscript that $ORDER answers in it.
fn sibling_in(
    share: &HubShare,
    alloc: Global,
    place: &Place,
    direction: Direction,
    buffer: &mut [u8],
    wanted: &mut usize,
) -> Outcome
    ensures { IsOrder place.now direction share.now result buffer.old buffer.new wanted.new }
{
    copy_sibling(alloc, &share.content(), place, direction, buffer, wanted)
}

// Copies the subscript that $ORDER answers at a place of the moment.
fn look_sibling(
    seat: &mut Seat,
    alloc: Global,
    at_start: bool,
    place: &Place,
    direction: Direction,
    buffer: &mut [u8],
    wanted: &mut usize,
) -> Result<Outcome, Busy>
    ensures { IsLook at_start (λ m outcome. IsOrder place.now direction m outcome buffer.old buffer.new wanted.new) ((buffer.new ≡ buffer.old) × (wanted.new ≡ 0)) seat.old seat.new result }
{
    *wanted = 0;
    if let Some(view) = held(seat, at_start) {
        return Ok(copy_sibling(alloc, &view, place, direction, buffer, wanted));
    }
    match seen(seat, at_start) {
        Ok(Ok(share)) => Ok(sibling_in(&share, alloc, place, direction, buffer, wanted)),
        Ok(Err(outcome)) => Ok(outcome),
        Err(Busy) => Err(Busy),
    }
}

/// Copies the bytes of the subscript one level below the key that comes next to `start` at the moment, or none where
/// there is none.
///
/// Outcomes: as of `embedded::copy_sibling`; before the look those of `order`; `NoTransaction`, `NoEngine`, `Busy` as of
/// `look`. Then nothing is copied.
pub fn look_order(
    seat: &mut Seat,
    alloc: Global,
    at_start: bool,
    level: &Key,
    start: &[u8],
    direction: Direction,
    buffer: &mut [u8],
    wanted: &mut usize,
) -> Result<Outcome, Busy>
    ensures { IsOrderLook at_start level.now start.now direction buffer.old buffer.new wanted.new seat.old seat.new result }
{
    match place_below(alloc, level, start) {
        Ok(place) => look_sibling(seat, alloc, at_start, &place, direction, buffer, wanted),
        Err(refusal) => {
            *wanted = 0;
            Ok(Outcome::Refused(refusal))
        }
    }
}

// Moves the key to the node that $QUERY answers in it.
fn found_in(share: &HubShare, place: &Place, direction: Direction, key: &mut Key) -> Outcome
    ensures { IsQuery place.now direction share.now key.old key.new result }
{
    move_to_found(&share.content(), place, direction, key)
}

// Moves the key to the node that $QUERY answers at a place of the moment.
fn look_found(
    seat: &mut Seat,
    at_start: bool,
    place: &Place,
    direction: Direction,
    key: &mut Key,
) -> Result<Outcome, Busy>
    ensures { IsLook at_start (λ m outcome. IsQuery place.now direction m key.old key.new outcome) (key.new ≡ key.old) seat.old seat.new result }
{
    if let Some(view) = held(seat, at_start) {
        return Ok(move_to_found(&view, place, direction, key));
    }
    match seen(seat, at_start) {
        Ok(Ok(share)) => Ok(found_in(&share, place, direction, key)),
        Ok(Err(outcome)) => Ok(outcome),
        Err(Busy) => Err(Busy),
    }
}

/// Moves the key to the nearest node with a value at the moment, in the same name, as `query` does.
///
/// Outcomes: as of `embedded::move_to_found`; before the look those of `query`; `NoTransaction`, `NoEngine`, `Busy` as of
/// `look`. Then the key is as it was.
pub fn look_query(
    seat: &mut Seat,
    at_start: bool,
    key: &mut Key,
    is_open: bool,
    direction: Direction,
) -> Result<Outcome, Busy>
    ensures { IsQueryLook at_start key.old is_open direction key.new seat.old seat.new result }
{
    match place_at(key, is_open) {
        Ok(place) => look_found(seat, at_start, &place, direction, key),
        Err(refusal) => Ok(Outcome::Refused(refusal)),
    }
}

// Copies the next nodes of a walk over a database.
fn walked_in(
    view: &Snapshot<'_>,
    alloc: Global,
    root: &Option<Box<Key>>,
    place: &mut Option<Box<Key>>,
    buffer: &mut [u8],
    wanted: &mut usize,
) -> Outcome
    ensures { IsWalked (nodes_left (option_map (λ b. b.value) root.now) (option_map (λ b. b.value) place.old) view.now) (option_map (λ b. b.value) place.old) (option_map (λ b. b.value) place.new) result buffer.old buffer.new wanted.new }
{
    let mut text = Vec::new(alloc);
    copy_walked(alloc, view, root, place, &mut text, buffer, wanted)
}

// Copies the next nodes of a walk over it.
fn nodes_in(
    share: &HubShare,
    alloc: Global,
    root: &Option<Box<Key>>,
    place: &mut Option<Box<Key>>,
    buffer: &mut [u8],
    wanted: &mut usize,
) -> Outcome
    ensures { IsWalked (nodes_left (option_map (λ b. b.value) root.now) (option_map (λ b. b.value) place.old) share.now) (option_map (λ b. b.value) place.old) (option_map (λ b. b.value) place.new) result buffer.old buffer.new wanted.new }
{
    walked_in(&share.content(), alloc, root, place, buffer, wanted)
}

/// Copies the next nodes of a walk over the database of the moment, as many as the buffer has room for, as
/// `Embedded::copy_nodes` does.
///
/// Outcomes: as of `embedded::copy_walked`; `NoTransaction`, `NoEngine`, `Busy` as of `look`. Then nothing is copied, and
/// `place` stays.
pub fn walk(
    seat: &mut Seat,
    alloc: Global,
    at_start: bool,
    root: &Option<Box<Key>>,
    place: &mut Option<Box<Key>>,
    buffer: &mut [u8],
    wanted: &mut usize,
) -> Result<Outcome, Busy>
    ensures { IsWalk at_start (option_map (λ b. b.value) root.now) (option_map (λ b. b.value) place.old) (option_map (λ b. b.value) place.new) seat.old seat.new result buffer.old buffer.new wanted.new }
{
    *wanted = 0;
    if let Some(view) = held(seat, at_start) {
        return Ok(walked_in(&view, alloc, root, place, buffer, wanted));
    }
    match seen(seat, at_start) {
        Ok(Ok(share)) => Ok(nodes_in(&share, alloc, root, place, buffer, wanted)),
        Ok(Err(outcome)) => Ok(outcome),
        Err(Busy) => Err(Busy),
    }
}
