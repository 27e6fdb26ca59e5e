//! A workspace follows the commands of its transaction: laws for the commit.
//!
//! A workspace holds what commands wrote (`HoldsWrites` of `specs/Following.antt`) where it decides just what they set
//! or killed, has written just what they leave set, and its writes over the database of the start are what they leave.
//! (1) With nothing written it holds the writes of no commands. (2) Each command keeps that: a set, a kill or the
//! copies of a MERGE in the workspace, or an $INCREMENT's sum, and a look that leaves it as it is. (3) At the commit its changes over the
//! present database, where that agrees with the start on what was read, are those of the commands there: they leave
//! what the commands leave, and change just what the commands touch, each reference once.
//!
//! After SET ^A(1) to 5 and KILL ^A a workspace has written nothing, and killed ^A. Over a database that has ^A(2), and
//! ^A(3) by another job's commit since the start, its changes take away both: just what these commands touch there.
//!
//! Read `specs/Following.antt`. There is no code here: each law is a public function that does nothing, and its clause
//! is the law. Laws for callers: `specs/laws/Following.antt`.
#![tactic(auto)]

ghost use Rattle.std.specs.Prelude.{[]};
ghost use Rattle.collation.specs.Database.{Database};
ghost use Rattle.workspace.specs.Layers.{nothing_written};
ghost use Rattle.followed.specs.Following.{HoldsWrites, HoldsAlways, ChangesAreTouched};

/// A workspace in which nothing is written holds the writes of no commands.
pub fn an_empty_workspace_holds_nothing()
    ensures { (m : Database) → HoldsWrites nothing_written [] m }
{}

/// After one more command a workspace holds its writes too.
pub fn a_workspace_follows_its_commands()
    ensures { HoldsAlways }
{}

/// The changes at the commit are those of the commands, and change just what these touch.
pub fn changes_are_those_of_the_commands()
    ensures { ChangesAreTouched }
{}
