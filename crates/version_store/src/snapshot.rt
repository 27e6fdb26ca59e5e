//! Content at one stamp.
use crate::store::KeyedStore;
use collation::Text;
use globals::{Cut, OrderedView, Run};
use key_codec::Key;
use std::marker::Model;

/// The content of a store at one stamp. It is seen as that database, and takes no memory.
#[derive(Drop)]
pub struct Snapshot<'a> {
    pub(crate) store: &'a KeyedStore,
    pub(crate) stamp: u64,
}

impl<'a> Model for Snapshot<'a> {
    ghost use Rattle.collation.specs.Database.{Database, database_code};
    ghost use Rattle.version_store.specs.Versions.{content_at};

    ghost Value = { Database };

    ghost coded = { database_code };

    ghost view = { λ s. content_at s.store.now.versions s.stamp };
}

impl<'a> OrderedView for Snapshot<'a> {
    ghost content = { λ s. s };

    fn get(&self, key: &Key) -> Option<&Text> {
        self.store.get_at(key, self.stamp)
    }

    fn next(&self, cut: Cut<'_>, end: Option<Cut<'_>>) -> Option<(&Key, &Text)> {
        self.store.next_at(cut, end, self.stamp)
    }

    fn gather(&self, cut: Cut<'_>, end: Option<Cut<'_>>, most: usize) -> Run<'_> {
        self.store.gather_at(cut, end, self.stamp, most)
    }

    fn prev(&self, cut: Cut<'_>, floor: Option<Cut<'_>>) -> Option<(&Key, &Text)> {
        self.store.prev_at(cut, floor, self.stamp)
    }
}
