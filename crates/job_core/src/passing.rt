//! What look-ups pass over at once: stretches in which no node is left.
ghost use Rattle.std.specs.Prelude.{◌≡◌, ◌≤◌, ℕ, List, [], true, IfSome};
ghost use Rattle.std.specs.FinMap as finmap;
ghost use Rattle.collation.specs.Database.{Database};
ghost use Rattle.command.specs.Data.{data_after};
ghost use Rattle.stretches.specs.Empty.{AreEmpty, IsEmpty};
ghost use Rattle.version_store.specs.Versions.{content_at, content_now};

use crate::absences::Absences;
use collation::Direction;
use command::{DataCommand, Look};
use globals::{Cut, OrderedView};
use key_codec::{Key, Place};
use key_map::CutPoint;
use read_ranges::ReadRange;
use std::alloc::Global;
use std::marker::Model;
use stretches::{InTheWay, Left, Skipping, Stretches, scout, scout_kill};
use validate_commit::Work;
use version_store::KeyedStore;

/// Stretches in which no node of the database stands, and whether it is worth while to look for more. They are seen as
/// a list of ranges.
#[derive(Drop)]
pub(crate) struct Passing {
    stretches: Stretches,
    absences: Absences,
}

impl Model for Passing {
    ghost use Rattle.std.specs.Prelude.{List};
    ghost use Rattle.read_ranges.specs.declared.range.ReadRange.{ReadRange};

    ghost Value = { List ReadRange };

    ghost view = { λ p. p.stretches };
}

impl Passing {
    /// No stretch. Takes no memory.
    pub(crate) fn new(alloc: Global) -> Passing
        ensures { result ≡ [] }
    {
        Passing {
            stretches: Stretches::new(alloc),
            absences: Absences::new(),
        }
    }

    /// The stretches.
    pub(crate) fn stretches(&self) -> &Stretches
        ensures { result.now ≡ self.now }
    {
        &self.stretches
    }

    /// Whether there are stretches that have no node of the content at a stamp: where nothing was written since. Takes no
    /// memory.
    pub(crate) fn hold_at(&self, store: &KeyedStore, stamp: u64) -> bool
        ensures { result ≡ true → stamp ≤ store.now.present → AreEmpty self.now (content_now store.now) → AreEmpty self.now (content_at store.now.versions stamp) }
    {
        if self.stretches.are_none() {
            return false;
        }
        store.latest() <= stamp
    }

    /// Before a lone data command: a $ORDER, also of names, $QUERY or $DATA looks for the stretch over which it will pass;
    /// where another may put a node into one of them, what is left of it is kept.
    pub(crate) fn make_ready(
        &mut self,
        alloc: Global,
        store: &KeyedStore,
        command: &DataCommand,
        oldest: Option<u64>,
    )
        requires { AreEmpty self.old (content_now store.now) }
        ensures before { AreEmpty self.new (content_now store.now) }
        ensures behind { AreEmpty self.new (data_after command.now (content_now store.now)) }
    {
        match command {
            DataCommand::Look(look) => self.look_ahead(alloc, store, look),
            DataCommand::Kill(_, _) => self.begin_kill(store, oldest),
            _ => self.leave(command),
        }
    }

    /// Before a lone $ORDER: it looks for the stretch over which it will pass, where killed nodes may lie in its way.
    pub(crate) fn seek_order(
        &mut self,
        alloc: Global,
        store: &KeyedStore,
        place: &Place,
        direction: Direction,
    )
        requires { AreEmpty self.old (content_now store.now) }
        ensures { AreEmpty self.new (content_now store.now) }
    {
        if self.absences.are_sought() {
            if let Ok(copy) = place.clone() {
                self.note_ahead(alloc, store, &Look::Order(copy, direction));
            }
        }
    }

    /// The stretch that a lone KILL leaves while older content is asked for: no node stands there once it is done.
    pub(crate) fn killed_by(&self, store: &KeyedStore, command: &DataCommand) -> Option<ReadRange>
        ensures { (m : Database) → IfSome result (λ stretch. IsEmpty stretch (data_after command.now m)) }
    {
        match command {
            DataCommand::Kill(root, extent) => {
                if !self.absences.are_sought_by_kill() {
                    return None;
                }
                scout_kill(&Placed { store }, &self.stretches, root, *extent)
            }
            _ => None,
        }
    }

    /// After a lone data command: where it is done the stretch that it has left is kept.
    pub(crate) fn keep_killed(&mut self, is_done: bool, killed: &Option<ReadRange>)
        ensures { (m : Database) → AreEmpty self.old m → (is_done ≡ true → IfSome killed.now (λ stretch. IsEmpty stretch m)) → AreEmpty self.new m }
    {
        self.absences.end_kill(killed.is_some());
        if !is_done {
            return;
        }
        self.stretches.follow(Left::All, killed);
    }

    fn begin_kill(&mut self, store: &KeyedStore, oldest: Option<u64>)
        ensures { self.new ≡ self.old }
    {
        self.note_kills(store, oldest);
        if oldest.is_some() {
            self.absences.begin_kill();
        }
    }

    // Keeps what is left of the stretches by a command that may put nodes into one of them.
    fn leave(&mut self, command: &DataCommand)
        ensures before { (m : Database) → AreEmpty self.old m → AreEmpty self.new m }
        ensures behind { (m : Database) → AreEmpty self.old m → AreEmpty self.new (data_after command.now m) }
    {
        let left = self.stretches.left_by(command);
        self.stretches.follow(left, &None);
    }

    /// Before a lone SET of the reference: what is left of the stretches by it is kept.
    pub(crate) fn leave_set(&mut self, key: &Key)
        ensures before { (m : Database) → AreEmpty self.old m → AreEmpty self.new m }
        ensures behind { (value : List ℕ) → (m : Database) → AreEmpty self.old m → AreEmpty self.new (finmap.insert m key.now value) }
    {
        let left = self.stretches.left_by_set(key);
        self.stretches.follow(left, &None);
    }

    /// Before a commit: what it has set is taken out of the stretches.
    pub(crate) fn make_way(&mut self, store: &KeyedStore, work: &Work, oldest: Option<u64>)
        ensures before { (m : Database) → AreEmpty self.old m → AreEmpty self.new m }
        ensures written { AreEmpty self.new work.now.layer.written }
    {
        self.note_killed(store, work, oldest);
        work.leave_out(&mut self.stretches);
    }

    fn note_killed(&mut self, store: &KeyedStore, work: &Work, oldest: Option<u64>)
        ensures { self.new ≡ self.old }
    {
        if oldest.is_some() && work.has_killed() {
            self.note_kills(store, oldest);
        }
    }

    // Nodes are to be killed: where older content is asked for absences are left.
    fn note_kills(&mut self, store: &KeyedStore, oldest: Option<u64>)
        ensures { self.new ≡ self.old }
    {
        if oldest.is_some() {
            self.absences.note_kills(store.now(), store.placed_count());
        }
    }

    /// A turn of the collector at this horizon visits so many keys at most.
    pub(crate) fn note_turn(&mut self, horizon: u64, limit: usize)
        ensures { self.new ≡ self.old }
    {
        self.absences.note_turn(horizon, limit);
    }

    /// Before a look-up: one that isn't a $GET looks for the stretch over which it will pass.
    pub(crate) fn look_ahead(&mut self, alloc: Global, store: &KeyedStore, look: &Look)
        requires { AreEmpty self.old (content_now store.now) }
        ensures { AreEmpty self.new (content_now store.now) }
    {
        match look {
            Look::Data(_) => self.seek(alloc, store, look),
            Look::Get(_, _) => {}
            Look::Order(_, _) => self.seek(alloc, store, look),
            Look::Query(_, _) => self.seek(alloc, store, look),
            Look::Name(_, _) => self.seek(alloc, store, look),
        }
    }

    fn seek(&mut self, alloc: Global, store: &KeyedStore, look: &Look)
        requires { AreEmpty self.old (content_now store.now) }
        ensures { AreEmpty self.new (content_now store.now) }
    {
        if self.absences.are_sought() {
            self.note_ahead(alloc, store, look);
        }
    }

    // Notes the stretch over which a look-up will pass, if killed nodes lie there.
    #[inline(never)]
    fn note_ahead(&mut self, alloc: Global, store: &KeyedStore, look: &Look)
        requires { AreEmpty self.old (content_now store.now) }
        ensures { AreEmpty self.new (content_now store.now) }
    {
        let passed = self.passed(alloc, store, look);
        self.note(&passed);
    }

    fn passed(&self, alloc: Global, store: &KeyedStore, look: &Look) -> Option<ReadRange>
        requires { AreEmpty self.now (content_now store.now) }
        ensures { IfSome result (λ stretch. IsEmpty stretch (content_now store.now)) }
    {
        let placed = Placed { store };
        let view = store.view_now();
        scout_past(alloc, &view, &placed, &self.stretches, look)
    }

    fn note(&mut self, passed: &Option<ReadRange>)
        ensures { (m : Database) → AreEmpty self.old m → IfSome passed.now (λ stretch. IsEmpty stretch m) → AreEmpty self.new m }
    {
        self.absences.note_search(passed.is_some());
        self.stretches.follow(Left::All, passed);
    }
}

// The stretch over which a look-up passes, which is looked for past those that are known.
fn scout_past<V: OrderedView>(
    alloc: Global,
    view: &V,
    placed: &Placed<'_>,
    stretches: &Stretches,
    look: &Look,
) -> Option<ReadRange>
    requires { AreEmpty stretches.now (V.content view.now) }
    ensures { IfSome result (λ stretch. IsEmpty stretch (V.content view.now)) }
{
    scout(
        alloc,
        &Skipping::new(view, stretches),
        placed,
        stretches,
        look,
    )
}

// All placed references lie in the way of look-ups.
#[derive(Drop)]
struct Placed<'s> {
    store: &'s KeyedStore,
}

impl<'s> InTheWay for Placed<'s> {
    fn first_from(&self, cut: Cut<'_>) -> Option<&Key> {
        let (tree, _) = self.store.tree_and_chains();
        match tree.first_from(&CutPoint { cut }).0 {
            Some((key, _)) => Some(key),
            None => None,
        }
    }

    fn last_before(&self, cut: Cut<'_>) -> Option<&Key> {
        let (tree, _) = self.store.tree_and_chains();
        match tree.last_before(&CutPoint { cut }).0 {
            Some((key, _)) => Some(key),
            None => None,
        }
    }
}
