//! The B+tree at numbers. Expected answers are those of std's `BTreeMap` at the same steps, and numbers by hand.
ghost use Rattle.std.specs.Prelude.{nat_lt};
ghost use Rattle.structure_tests.specs.laws.Numbers.{below_below, below_tied};

use btree::{Point, Trail, Tree};
use std::alloc::{AllocError, Global};
use std::collections::BTreeMap;
use steady_map::SteadyMap;

// The point before a number.
#[derive(Drop)]
struct Before(u64);

impl Point<u64> for Before {
    ghost before = { λ p k. nat_lt k p.0 };

    fn is_after(&self, key: &u64) -> bool {
        *key < self.0
    }

    ghost downward = { λ p x y h e. below_below x y p.0 h e };

    ghost tied = { λ p x y e. below_tied x y p.0 e };
}

// Which key a step is about: rising, falling, or in no order with many keys twice.
#[derive(Clone, Copy)]
enum Order {
    Rising,
    Falling,
    Mixed,
}

fn key_of(order: Order, step: u64) -> u64 {
    match order {
        Order::Rising => step,
        Order::Falling => 10_000_u64.saturating_sub(step),
        Order::Mixed => (step % 10_000) * 7_919 % 2_003,
    }
}

// Takes the key out, out of its leaf alone where the next key shows that none is in between.
fn taken(tree: &mut Tree<u64, u64>, key: u64) -> Result<Option<u64>, AllocError> {
    match tree.take_alone(&key, &Before(key.saturating_add(1))) {
        Some(value) => Ok(Some(value)),
        None => tree.remove(&key),
    }
}

// Does one step on both maps: every third one removes the key of an earlier step. Whether they answer alike.
fn is_step_alike(
    alloc: Global,
    order: Order,
    tree: &mut Tree<u64, u64>,
    map: &mut BTreeMap<u64, u64>,
    step: u64,
) -> Result<bool, AllocError> {
    if step % 3 == 2 {
        let key = key_of(order, step / 2);
        let removed = if step % 2 == 0 {
            tree.remove(&key)?
        } else {
            taken(tree, key)?
        };
        return Ok(removed == map.remove(&key));
    }
    let key = key_of(order, step);
    let before = tree.insert(alloc, key, step)?;
    Ok(before == map.insert(key, step)?)
}

fn are_steps_alike(
    alloc: Global,
    order: Order,
    tree: &mut Tree<u64, u64>,
    map: &mut BTreeMap<u64, u64>,
) -> Result<bool, AllocError> {
    for step in 0..10_000 {
        if !is_step_alike(alloc, order, tree, map, step)? {
            return Ok(false);
        }
    }
    Ok(true)
}

// Whether both maps have the same pairs in the same order.
fn are_pairs_alike(tree: &Tree<u64, u64>, map: &BTreeMap<u64, u64>) -> bool {
    if tree.len() != map.len() {
        return false;
    }
    for ((key, value), (map_key, map_value)) in tree.iter().zip(map.iter()) {
        if *key != *map_key || *value != *map_value {
            return false;
        }
    }
    true
}

fn is_alike(alloc: Global, order: Order) -> Result<bool, AllocError> {
    let mut tree = Tree::new(alloc);
    let mut map = BTreeMap::new(alloc);
    let alike = are_steps_alike(alloc, order, &mut tree, &mut map)?;
    Ok(alike && are_pairs_alike(&tree, &map))
}

// The multiples of three below 3,000, inserted in no order.
fn threes(alloc: Global) -> Result<Tree<u64, u64>, AllocError> {
    let mut tree = Tree::new(alloc);
    for step in 0_u64..1_000 {
        let number = step * 7 % 1_000 * 3;
        tree.insert(alloc, number, step)?;
    }
    Ok(tree)
}

fn number_of(found: (Option<(&u64, &u64)>, usize)) -> Option<u64> {
    match found.0 {
        None => None,
        Some((number, _)) => Some(*number),
    }
}

// The trail by which a step inserts: in turn that of the key's look-up, of another key's, of one in another tree, and none.
fn trail_of(tree: &Tree<u64, u64>, other: &Tree<u64, u64>, key: u64, step: u64) -> Trail {
    match step % 4 {
        0 => tree.look_up(&key).1,
        1 => tree.look_up(&(key / 2)).1,
        2 => other.look_up(&key).1,
        _ => Trail::new(),
    }
}

// Whether a look-up with its trail tells what one without tells.
fn is_look_up_alike(tree: &Tree<u64, u64>, key: u64) -> bool {
    let (value, trail) = tree.look_up(&key);
    let (same, visits) = tree.get(&key);
    value == same && trail.visits() == visits
}

// Whether insertions by trails, of which most are wrong, do what those without do.
fn are_insertions_alike(
    alloc: Global,
    order: Order,
    other: &Tree<u64, u64>,
    tree: &mut Tree<u64, u64>,
    plain: &mut Tree<u64, u64>,
) -> Result<bool, AllocError> {
    for step in 0..10_000 {
        let key = key_of(order, step);
        let trail = trail_of(tree, other, key, step);
        let before = tree.insert_by(alloc, key, step, &trail)?;
        let same = before == plain.insert(alloc, key, step)? && tree.depth() == plain.depth();
        if !same || !is_look_up_alike(tree, key) {
            return Ok(false);
        }
    }
    Ok(true)
}

fn are_trees_alike(tree: &Tree<u64, u64>, plain: &Tree<u64, u64>) -> bool {
    for ((key, value), (plain_key, plain_value)) in tree.iter().zip(plain.iter()) {
        if *key != *plain_key || *value != *plain_value {
            return false;
        }
    }
    tree.len() == plain.len()
}

fn do_trails_change_nothing(alloc: Global, order: Order) -> Result<bool, AllocError> {
    let other = threes(alloc)?;
    let mut tree = Tree::new(alloc);
    let mut plain = Tree::new(alloc);
    let alike = are_insertions_alike(alloc, order, &other, &mut tree, &mut plain)?;
    Ok(alike && are_trees_alike(&tree, &plain))
}

// How many of 10,000 insertions are told their place beside the last one; none where a key is told missing that is there.
fn told_beside(alloc: Global, order: Order) -> Result<Option<u64>, AllocError> {
    let mut tree = Tree::new(alloc);
    let mut trail = Trail::new();
    let mut told: u64 = 0;
    for step in 0..10_000 {
        let key = key_of(order, step);
        let (value, own) = tree.look_up(&key);
        let is_there = value.is_some();
        if !tree.misses_beside(&key, &mut trail) {
            trail = own;
        } else if is_there {
            return Ok(None);
        } else {
            told = told.saturating_add(1);
        }
        tree.insert_by(alloc, key, step, &trail)?;
    }
    Ok(Some(told))
}

// Whether a walk on from a number, and one back from it, pass the multiples of three and end.
fn are_walks_whole(tree: &Tree<u64, u64>, from: u64, above: u64, count: usize) -> bool {
    let mut want = above;
    let mut passed: usize = 0;
    for (number, _) in tree.from(&Before(from)) {
        if *number != want {
            return false;
        }
        want = want.saturating_add(3);
        passed = passed.saturating_add(1);
    }
    want = above;
    for (number, _) in tree.back_from(&Before(from)) {
        want = want.saturating_sub(3);
        if *number != want {
            return false;
        }
        passed = passed.saturating_add(1);
    }
    passed == count
}

// How many levels the tree of the numbers below `keys` has.
fn depth_of(alloc: Global, keys: u64, rising: bool) -> Result<usize, AllocError> {
    let mut tree = Tree::new(alloc);
    for step in 0..keys {
        let number = if rising { step } else { keys - step };
        tree.insert(alloc, number, step)?;
    }
    Ok(tree.depth())
}

// Whether the pairs are the numbers below one, each with itself.
fn are_numbers_below(tree: &Tree<u64, u64>, count: u64) -> bool {
    let mut want = 0;
    for (number, value) in tree.iter() {
        if *number != want || *value != want {
            return false;
        }
        want = want.saturating_add(1);
    }
    want == count
}

// Inserts a number. Where memory is refused, whether all is as before; then once more.
fn is_refusal_whole(
    alloc: Global,
    tree: &mut Tree<u64, u64>,
    number: u64,
) -> Result<bool, AllocError> {
    let depth = tree.depth();
    let Err(refused) = tree.insert(alloc, number, number) else {
        return Ok(true);
    };
    let same = tree.depth() == depth && are_numbers_below(tree, number);
    let (key, value) = refused.value;
    tree.insert(alloc, key, value)?;
    Ok(same && key == number && value == number)
}

fn are_refusals_whole(alloc: Global) -> Result<bool, AllocError> {
    let mut tree = Tree::new(alloc);
    for number in 0..1_100 {
        if !is_refusal_whole(alloc, &mut tree, number)? {
            return Ok(false);
        }
    }
    Ok(tree.len() == 1_100 && tree.depth() == 3)
}

// The nearest numbers from 1,000 on, before 1,002, from 2,998 on and before 0.
fn nearest(tree: &Tree<u64, u64>) -> [Option<u64>; 4] {
    [
        number_of(tree.first_from(&Before(1_000))),
        number_of(tree.last_before(&Before(1_002))),
        number_of(tree.first_from(&Before(2_998))),
        number_of(tree.last_before(&Before(0))),
    ]
}

fn nearest_of_threes(alloc: Global) -> Result<[Option<u64>; 4], AllocError> {
    let tree = threes(alloc)?;
    Ok(nearest(&tree))
}

fn are_walks_of_threes_whole(alloc: Global) -> Result<[bool; 3], AllocError> {
    let tree = threes(alloc)?;
    Ok([
        are_walks_whole(&tree, 1_000, 1_002, 1_000),
        are_walks_whole(&tree, 0, 0, 1_000),
        are_walks_whole(&tree, 3_000, 3_000, 1_000),
    ])
}

// Takes the numbers from one up to another out of both maps, in the tree a stretch at a time. Whether the tree takes as many.
fn are_stretches_alike(
    tree: &mut Tree<u64, u64>,
    map: &mut BTreeMap<u64, u64>,
    from: u64,
    to: u64,
) -> Result<bool, AllocError> {
    let mut taken = 0_usize;
    for number in from..to {
        if map.remove(&number).is_none() {
            continue;
        }
        if taken == 0 {
            taken = tree.take_stretch(&Before(from), &Before(to))?;
        }
        if taken == 0 {
            return Ok(false);
        }
        taken -= 1;
    }
    Ok(taken == 0 && tree.take_stretch(&Before(from), &Before(to))? == 0)
}

// Fills both maps with every so manieth number below 3,000, and takes a run out of them. Whether they are alike then.
fn is_run_alike(
    alloc: Global,
    tree: &mut Tree<u64, u64>,
    map: &mut BTreeMap<u64, u64>,
    from: u64,
    to: u64,
) -> Result<bool, AllocError> {
    for number in 0_u64..3_000 {
        if number % 3 != from % 3 {
            tree.insert(alloc, number, from)?;
            map.insert(number, from)?;
        }
    }
    let alike = are_stretches_alike(tree, map, from, to)?;
    let none = match tree.first_from(&Before(from)).0 {
        None => true,
        Some((number, _)) => *number >= to,
    };
    Ok(alike && none && are_pairs_alike(tree, map))
}

fn are_runs_alike(alloc: Global) -> Result<bool, AllocError> {
    let mut tree = Tree::new(alloc);
    let mut map = BTreeMap::new(alloc);
    for round in 0_u64..120 {
        let from = round * 677 % 3_000;
        let to = from + round * 31 % 1_400;
        if !is_run_alike(alloc, &mut tree, &mut map, from, to)? {
            return Ok(false);
        }
    }
    let alike = is_run_alike(alloc, &mut tree, &mut map, 0, 3_000)?;
    Ok(alike && tree.is_empty() && tree.depth() == 1)
}

#[test]
fn runs_taken_out_leave_what_std_map_has(rt: HostRuntime) -> Result<(), AllocError> {
    assert!(rt; are_runs_alike(rt.alloc())?);
    Ok(())
}

// Whether just the numbers from 500 up to 1,500 lose their values.
fn are_values_emptied(alloc: Global) -> Result<bool, AllocError> {
    let mut tree: Tree<u64, Option<u64>> = Tree::new(alloc);
    for number in 0_u64..2_000 {
        tree.insert(alloc, number, Some(number))?;
    }
    tree.empty_between(&Before(500), &Before(1_500));
    for (number, value) in tree.iter() {
        let outside = *number < 500 || *number >= 1_500;
        if value.is_some() != outside {
            return Ok(false);
        }
    }
    Ok(tree.len() == 2_000)
}

// Whether a key goes alone just where the next one isn't before the point, and its leaf keeps 16 others.
fn goes_alone(alloc: Global) -> Result<bool, AllocError> {
    let mut tree = Tree::new(alloc);
    for number in 0_u64..18 {
        tree.insert(alloc, number, number)?;
    }
    let with_more = tree.take_alone(&5, &Before(7)).is_none();
    let last = tree.take_alone(&17, &Before(18)).is_none();
    let missed = tree.take_alone(&18, &Before(19)).is_none();
    let first = tree.take_alone(&5, &Before(6)) == Some(5);
    let second = tree.take_alone(&7, &Before(8)) == Some(7);
    let few = tree.take_alone(&9, &Before(10)).is_none();
    Ok(with_more && last && missed && first && second && few && tree.len() == 16)
}

#[test]
fn key_goes_alone_where_none_follows_before_the_point(rt: HostRuntime) -> Result<(), AllocError> {
    assert!(rt; goes_alone(rt.alloc())?);
    Ok(())
}

// Whether a run of a steady map goes, and no pair beside it.
fn is_run_gone(alloc: Global) -> Result<bool, AllocError> {
    let mut map: SteadyMap<u64, u64> = SteadyMap::new(alloc);
    for number in 0_u64..3_000 {
        map.insert(alloc, number, number)?;
    }
    map.remove_between(&Before(500), &Before(2_500));
    for (number, _) in map.iter() {
        if *number >= 500 && *number < 2_500 {
            return Ok(false);
        }
    }
    Ok(map.len() == 1_000 && map.get(&499).0.is_some() && map.get(&2_500).0.is_some())
}

#[test]
fn run_of_a_steady_map_goes_whole(rt: HostRuntime) -> Result<(), AllocError> {
    assert!(rt; is_run_gone(rt.alloc())?);
    Ok(())
}

#[test]
fn emptied_run_keeps_its_keys(rt: HostRuntime) -> Result<(), AllocError> {
    assert!(rt; are_values_emptied(rt.alloc())?);
    Ok(())
}

#[test]
fn tree_of_rising_keys_answers_as_std_map(rt: HostRuntime) -> Result<(), AllocError> {
    assert!(rt; is_alike(rt.alloc(), Order::Rising)?);
    Ok(())
}

#[test]
fn tree_of_falling_keys_answers_as_std_map(rt: HostRuntime) -> Result<(), AllocError> {
    assert!(rt; is_alike(rt.alloc(), Order::Falling)?);
    Ok(())
}

#[test]
fn tree_of_mixed_keys_answers_as_std_map(rt: HostRuntime) -> Result<(), AllocError> {
    assert!(rt; is_alike(rt.alloc(), Order::Mixed)?);
    Ok(())
}

#[test]
fn wrong_trails_change_nothing_of_an_insertion(rt: HostRuntime) -> Result<(), AllocError> {
    assert!(rt; do_trails_change_nothing(rt.alloc(), Order::Rising)?);
    assert!(rt; do_trails_change_nothing(rt.alloc(), Order::Falling)?);
    assert!(rt; do_trails_change_nothing(rt.alloc(), Order::Mixed)?);
    Ok(())
}

#[test]
fn keys_in_order_are_told_their_place(rt: HostRuntime) -> Result<(), AllocError> {
    assert!(rt; told_beside(rt.alloc(), Order::Rising)? >= Some(9_000));
    assert!(rt; told_beside(rt.alloc(), Order::Falling)? >= Some(9_000));
    assert!(rt; told_beside(rt.alloc(), Order::Mixed)?.is_some());
    Ok(())
}

#[test]
fn seeks_answer_the_nearest_pairs(rt: HostRuntime) {
    assert!(rt; nearest_of_threes(rt.alloc()) == Ok([Some(1_002), Some(999), None, None]));
}

#[test]
fn walks_from_a_point_pass_all_pairs(rt: HostRuntime) {
    assert!(rt; are_walks_of_threes_whole(rt.alloc()) == Ok([true; 3]));
}

#[test]
fn tree_of_100000_keys_has_at_most_4_levels(rt: HostRuntime) -> Result<(), AllocError> {
    assert!(rt; depth_of(rt.alloc(), 100_000, true)? <= 4);
    Ok(())
}

// 900 in two levels are at least 28 a leaf: halves of leaves that were cut would need three.
#[test]
fn keys_in_order_leave_nodes_nearly_full(rt: HostRuntime) {
    assert!(rt; depth_of(rt.alloc(), 900, true) == Ok(2));
    assert!(rt; depth_of(rt.alloc(), 900, false) == Ok(2));
}

#[test]
fn refused_insert_leaves_content_and_depth(rt: HostRuntime) -> Result<(), AllocError> {
    assert!(rt; are_refusals_whole(rt.alloc())?);
    Ok(())
}
