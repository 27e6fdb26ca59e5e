//! Data commands, and what they are answered.
use collation::{Direction, Name, Text};
use key_codec::{Key, Place};

/// What a kill takes of a reference and its descendants. What each means: `takes` of `specs/Data.antt`.
#[derive(Clone, Copy, Debug, PartialEq, Eq)]
pub enum Extent {
    /// KILL: the reference and its descendants.
    All,
    /// KVALUE: the reference alone.
    Value,
    /// KSUBSCRIPTS: its descendants alone.
    Below,
}

/// A data command. What each means: `data_refusal`, `data_reply` and `data_after` of `specs/Data.antt`.
#[derive(Debug, Drop, PartialEq, Eq)]
pub enum DataCommand {
    /// SET: the reference has the value.
    Set(Key, Text),
    /// KILL, KVALUE, KSUBSCRIPTS: what the extent takes of the reference and its descendants has no value.
    Kill(Key, Extent),
    /// MERGE: what is at and under the second is at and under the first too.
    Merge(Key, Key),
    /// $INCREMENT: the reference has the sum of the number that its value begins with and of this one.
    Increment(Key, Text),
    /// A command that only looks.
    Look(Look),
}

/// A data command that only looks: it leaves the database as it is.
#[derive(Debug, Drop, PartialEq, Eq)]
pub enum Look {
    /// $DATA: whether the reference has a value, and whether descendants have.
    Data(Key),
    /// $GET: the value, else the default, else the empty string.
    Get(Key, Option<Text>),
    /// $ORDER: the nearest subscript at the level of the place's last one.
    Order(Place, Direction),
    /// $QUERY: the nearest node of the same name with a value.
    Query(Place, Direction),
    /// $ORDER of ^$GLOBAL: the nearest name that a node has beyond this one; without one the first, and backward the last.
    Name(Option<Name>, Direction),
}

/// What a data command is answered.
#[derive(Clone, Debug, Drop, PartialEq, Eq)]
pub enum Answer {
    /// It is done.
    Done,
    /// A value, a sum or a subscript, or the empty string where there is none.
    Value(Text),
    /// What $DATA answers.
    Number(u64),
    /// A reference that $QUERY found, or a name.
    Found(Key),
}
