//! A view that counts its look-ups, and how many the functions over a view make.
use crate::keys::{key_of, put};
use collation::{Direction, Text};
use command::Extent;
use globals::{Cut, OrderedView, Run, data, order, query, subtree, walk_from};
use key_codec::{Key, Place};
use key_map::KeyMap;
use overlay_view::Overlay;
use refusal::Refusal;
use std::alloc::Global;
use std::cell::Cell;
use std::test::*;
use workspace::Workspace;

// What stands here is what the view contains; the count rises with each look-up of any kind.
#[derive(Drop)]
pub struct Counting<'v, V: OrderedView> {
    view: &'v V,
    count: Cell<u64>,
}

impl<'v, V: OrderedView> Counting<'v, V> {
    pub fn new(view: &'v V) -> Counting<'v, V> {
        Counting {
            view,
            count: Cell::new(0),
        }
    }

    fn note(&self) {
        self.count.set(self.count.get().wrapping_add(1));
    }

    // How many look-ups there were since this was asked last.
    pub fn taken(&self) -> u64 {
        self.count.replace(0)
    }
}

impl<'v, V: OrderedView> OrderedView for Counting<'v, V> {
    ghost content = { λ c. V.content c.view.now };

    fn get(&self, key: &Key) -> Option<&Text> {
        self.note();
        self.view.get(key)
    }

    fn next(&self, cut: Cut<'_>, end: Option<Cut<'_>>) -> Option<(&Key, &Text)> {
        self.note();
        self.view.next(cut, end)
    }

    fn gather(&self, cut: Cut<'_>, end: Option<Cut<'_>>, most: usize) -> Run<'_> {
        self.note();
        self.view.gather(cut, end, most)
    }

    fn prev(&self, cut: Cut<'_>, floor: Option<Cut<'_>>) -> Option<(&Key, &Text)> {
        self.note();
        self.view.prev(cut, floor)
    }
}

// ^A(0,0,0) to ^A(9,9,9), in order, each with its last subscript.
pub fn thousand(alloc: Global) -> Result<KeyMap<Text>, Refusal> {
    let mut map = KeyMap::new(alloc);
    match fill(alloc, &mut map) {
        Ok(()) => Ok(map),
        Err(refusal) => {
            drop(map);
            Err(refusal)
        }
    }
}

fn fill(alloc: Global, map: &mut KeyMap<Text>) -> Result<(), Refusal> {
    for first in b'0'..=b'9' {
        for second in b'0'..=b'9' {
            for third in b'0'..=b'9' {
                put(alloc, map, &[b'A', first, second, third], third)?;
            }
        }
    }
    Ok(())
}

fn nodes_walked<V: OrderedView>(view: &V) -> u64 {
    let mut met: u64 = 0;
    for _ in walk_from(view, Cut::Start) {
        met = met.wrapping_add(1);
    }
    met
}

fn nodes_under<V: OrderedView>(view: &V, root: &Key) -> u64 {
    let mut met: u64 = 0;
    for _ in subtree(view, root) {
        met = met.wrapping_add(1);
    }
    met
}

// How many nodes a walk meets, and by how many look-ups.
fn walk_counts<V: OrderedView>(view: &Counting<'_, V>) -> (u64, u64) {
    let met = nodes_walked(view);
    (met, view.taken())
}

// The same of a walk over what is at and under a reference.
fn subtree_counts<V: OrderedView>(
    alloc: Global,
    view: &Counting<'_, V>,
    spelled: &[u8],
) -> Result<(u64, u64), Refusal> {
    let root = key_of(alloc, spelled)?;
    let met = nodes_under(view, &root);
    drop(root);
    Ok((met, view.taken()))
}

// A look-up for each 32 nodes, and six at most beside: five until as many are asked for, and one that finds no more.
fn is_few(counts: (u64, u64)) -> bool {
    counts.1 <= counts.0 / 32 + 6
}

// Of walks over all nodes and over what is at and under ^A(4), ^A(4,4,4) and ^B.
type FourCounts = ((u64, u64), (u64, u64), (u64, u64), (u64, u64));

fn four_counts(alloc: Global, map: &KeyMap<Text>) -> Result<FourCounts, Refusal> {
    let view = Counting::new(map);
    let all = walk_counts(&view);
    let hundred = subtree_counts(alloc, &view, b"A4")?;
    let one = subtree_counts(alloc, &view, b"A444")?;
    Ok((all, hundred, one, subtree_counts(alloc, &view, b"B")?))
}

fn four_counts_of_thousand(alloc: Global) -> Result<FourCounts, Refusal> {
    let map = thousand(alloc)?;
    let counts = four_counts(alloc, &map);
    drop(map);
    counts
}

#[test]
fn walks_look_up_one_node_in_32(rt: HostRuntime) -> Result<(), Fail> {
    let (all, hundred, one, none) = four_counts_of_thousand(rt.alloc())?;
    assert_eq!(rt; all.0, 1000);
    assert!(rt; is_few(all));
    assert_eq!(rt; hundred.0, 100);
    assert!(rt; is_few(hundred));
    // a view may give fewer than it is asked for, so a walk looks once more behind its last node
    assert_eq!(rt; one, (1, 2));
    assert_eq!(rt; none, (0, 1));
    Ok(())
}

// How many look-ups $DATA, $ORDER and $QUERY make at a place.
fn answers_counts<V: OrderedView>(
    alloc: Global,
    view: &Counting<'_, V>,
    place: &Place,
) -> Result<(u64, u64, u64), Refusal> {
    let _number = data(view, place.key());
    let of_data = view.taken();
    drop(order(alloc, view, place, Direction::Forward)?);
    let of_order = view.taken();
    let _key = query(view, place, Direction::Backward);
    Ok((of_data, of_order, view.taken()))
}

fn answers_counts_at<V: OrderedView>(
    alloc: Global,
    view: &Counting<'_, V>,
    spelled: &[u8],
) -> Result<(u64, u64, u64), Refusal> {
    let place = Place::new(key_of(alloc, spelled)?, false);
    let counts = answers_counts(alloc, view, &place);
    drop(place);
    counts
}

fn answers_counts_in_thousand(alloc: Global, spelled: &[u8]) -> Result<(u64, u64, u64), Refusal> {
    let map = thousand(alloc)?;
    let counts = answers_counts_at(alloc, &Counting::new(&map), spelled);
    drop(map);
    counts
}

#[test]
fn data_takes_two_look_ups_order_and_query_one(rt: HostRuntime) {
    assert!(rt; answers_counts_in_thousand(rt.alloc(), b"A44") == Ok((2, 1, 1)));
    assert!(rt; answers_counts_in_thousand(rt.alloc(), b"A999") == Ok((2, 1, 1)));
}

// What a transaction does over the thousand: `+A111` sets a value, `-A1` kills.
const DONE: [&[u8]; 17] = [
    b"+A345", b"-A3", b"+A333", b"-A57", b"+A57", b"+A000", b"+A11", b"-A220", b"-A221", b"-A222",
    b"-A223", b"-A224", b"+A2245", b"-A6", b"-A7", b"-A999", b"+B",
];

pub fn kill(alloc: Global, own: &mut Workspace, spelled: &[u8]) -> Result<(), Refusal> {
    let key = key_of(alloc, spelled)?;
    own.kill(alloc, key, Extent::All)?;
    Ok(())
}

fn set(alloc: Global, own: &mut Workspace, spelled: &[u8]) -> Result<(), Refusal> {
    let key = key_of(alloc, spelled)?;
    match Text::from_slice(alloc, b"own") {
        Ok(value) => {
            own.set(alloc, key, value)?;
            Ok(())
        }
        Err(_) => {
            drop(key);
            Err(Refusal::OutOfMemory)
        }
    }
}

fn kill_plain(alloc: Global, plain: &mut KeyMap<Text>, spelled: &[u8]) -> Result<(), Refusal> {
    let key = key_of(alloc, spelled)?;
    plain.remove_under(&key);
    Ok(())
}

fn set_plain(alloc: Global, plain: &mut KeyMap<Text>, spelled: &[u8]) -> Result<(), Refusal> {
    let key = key_of(alloc, spelled)?;
    match Text::from_slice(alloc, b"own") {
        Ok(value) => {
            drop(plain.insert(alloc, key, value)?);
            Ok(())
        }
        Err(_) => {
            drop(key);
            Err(Refusal::OutOfMemory)
        }
    }
}

fn act(
    alloc: Global,
    own: &mut Workspace,
    plain: &mut KeyMap<Text>,
    done: &[u8],
) -> Result<(), Refusal> {
    match done {
        [b'-', spelled @ ..] => {
            kill(alloc, own, spelled)?;
            kill_plain(alloc, plain, spelled)
        }
        [_, spelled @ ..] => {
            set(alloc, own, spelled)?;
            set_plain(alloc, plain, spelled)
        }
        [] => Err(Refusal::BadName),
    }
}

fn act_all(alloc: Global, own: &mut Workspace, plain: &mut KeyMap<Text>) -> Result<(), Refusal> {
    for done in &DONE {
        act(alloc, own, plain, done)?;
    }
    Ok(())
}

// Whether a walk over the view meets the members of the map, one after the other.
fn is_walked_as<V: OrderedView>(view: &V, plain: &KeyMap<Text>) -> bool {
    let mut other = plain.iter();
    for (key, value) in walk_from(view, Cut::Start) {
        match other.next() {
            Some((wanted, text)) => {
                if key != wanted || value != text {
                    return false;
                }
            }
            None => return false,
        }
    }
    other.next().is_none()
}

// Whether a walk over the overlay meets what the plain map has, and by how many look-ups of what is below.
fn overlay_counts(
    alloc: Global,
    start: &KeyMap<Text>,
    own: &mut Workspace,
    plain: &mut KeyMap<Text>,
) -> Result<(bool, u64), Refusal> {
    act_all(alloc, own, plain)?;
    let below = Counting::new(start);
    let same = is_walked_as(&Overlay::new(own, &below), plain);
    Ok((same, below.taken()))
}

fn overlay_counts_beside(
    alloc: Global,
    start: &KeyMap<Text>,
    plain: &mut KeyMap<Text>,
) -> Result<(bool, u64), Refusal> {
    let mut own = Workspace::new(alloc);
    let counts = overlay_counts(alloc, start, &mut own, plain);
    drop(own);
    counts
}

fn overlay_counts_over(alloc: Global, start: &KeyMap<Text>) -> Result<(bool, u64), Refusal> {
    let mut plain = thousand(alloc)?;
    let counts = overlay_counts_beside(alloc, start, &mut plain);
    drop(plain);
    counts
}

fn overlay_counts_of_thousand(alloc: Global) -> Result<(bool, u64), Refusal> {
    let start = thousand(alloc)?;
    let counts = overlay_counts_over(alloc, &start);
    drop(start);
    counts
}

// Ten killed ranges; what was written ends once.
#[test]
fn overlay_of_a_thousand_looks_up_one_node_in_32(rt: HostRuntime) -> Result<(), Fail> {
    let counts = overlay_counts_of_thousand(rt.alloc())?;
    assert!(rt; counts.0);
    assert!(rt; counts.1 <= 1000 / 32 + 6 + 10 + 1);
    Ok(())
}

// Whether an overlay finds the nodes next to a reference, at and under which all is killed, and by how many look-ups of
// what is below: the one after, and the one before.
fn beside_counts(
    own: &Workspace,
    start: &KeyMap<Text>,
    killed: &Key,
) -> ((bool, u64), (bool, u64)) {
    let below = Counting::new(start);
    let overlay = Overlay::new(own, &below);
    let is_next = overlay.next(Cut::Before(killed), None).is_some();
    let on = below.taken();
    let is_prev = overlay.prev(Cut::Past(killed), None).is_some();
    ((is_next, on), (is_prev, below.taken()))
}

fn beside_killed_counts(
    alloc: Global,
    own: &mut Workspace,
    start: &KeyMap<Text>,
) -> Result<((bool, u64), (bool, u64)), Refusal> {
    kill(alloc, own, b"A4")?;
    let killed = key_of(alloc, b"A4")?;
    let counts = beside_counts(own, start, &killed);
    drop(killed);
    Ok(counts)
}

fn beside_killed_counts_in_thousand(alloc: Global) -> Result<((bool, u64), (bool, u64)), Refusal> {
    let start = thousand(alloc)?;
    let mut own = Workspace::new(alloc);
    let counts = beside_killed_counts(alloc, &mut own, &start);
    drop(own);
    drop(start);
    counts
}

// One look-up finds the range's first or last node, and one what stands beyond all hundred.
#[test]
fn overlay_passes_over_a_killed_range_by_two_look_ups(rt: HostRuntime) -> Result<(), Fail> {
    let (next, prev) = beside_killed_counts_in_thousand(rt.alloc())?;
    assert_eq!(rt; next, (true, 2));
    assert_eq!(rt; prev, (true, 2));
    Ok(())
}

// The nodes of a run by their last subscripts.
fn is_run(run: &Run<'_>, wanted: &[u8]) -> bool {
    for index in 0..wanted.len() {
        let is_node = match (run.node(index), wanted.get(index)) {
            (Some((_, value)), Some(byte)) => value.as_slice() == [*byte].as_slice(),
            _ => false,
        };
        if !is_node {
            return false;
        }
    }
    run.len() == wanted.len()
}

fn gathers(alloc: Global, map: &KeyMap<Text>) -> Result<bool, Refusal> {
    let key = key_of(alloc, b"A447")?;
    let own = Workspace::new(alloc);
    let overlay = Overlay::new(&own, map);
    let of_map = is_run(&map.gather(Cut::After(&key), None, 3), b"890");
    let of_overlay = is_run(&overlay.gather(Cut::Before(&key), None, 4), b"7890");
    drop(own);
    drop(key);
    Ok(of_map && of_overlay)
}

fn thousand_gathers(alloc: Global) -> Result<bool, Refusal> {
    let map = thousand(alloc)?;
    let told = gathers(alloc, &map);
    drop(map);
    told
}

#[test]
fn maps_and_overlays_gather_what_was_asked_for(rt: HostRuntime) {
    assert!(rt; thousand_gathers(rt.alloc()) == Ok(true));
}
