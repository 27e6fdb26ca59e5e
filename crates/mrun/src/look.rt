//! A look at the database in mid-run, on standard error.
use command::{Command, DataCommand, Look};
use globals::{Cut, walk_between};
use job_core::JobCore;
use key_codec::Key;
use m_text::{write_key, write_literal};
use script::{Drafts, read_line};
use std::alloc::{AllocError, Global};

// At most so many nodes are shown.
const MOST_NODES: usize = 100;

// The reference that a data command names first, where it names one.
fn first_key(command: &DataCommand) -> Option<&Key> {
    match command {
        DataCommand::Set(key, _) => Some(key),
        DataCommand::Kill(key, _) => Some(key),
        DataCommand::Merge(key, _) => Some(key),
        DataCommand::Increment(key, _) => Some(key),
        DataCommand::Look(Look::Data(key)) => Some(key),
        DataCommand::Look(Look::Get(key, _)) => Some(key),
        DataCommand::Look(Look::Order(place, _)) => Some(place.key()),
        DataCommand::Look(Look::Query(place, _)) => Some(place.key()),
        DataCommand::Look(Look::Name(_, _)) => None,
    }
}

// A node as a line of a listing, in `line`.
fn write_node(key: &Key, value: &[u8], line: &mut Vec<u8>) -> Result<(), AllocError> {
    line.clear();
    write_key(key, line)?;
    line.push(b'=')?;
    write_literal(value, line)
}

// Prints a node.
fn print_node(
    rt: &impl Eprint,
    key: &Key,
    value: &[u8],
    line: &mut Vec<u8>,
) -> Result<(), AllocError> {
    write_node(key, value, line)?;
    if let Ok(text) = std::str::from_utf8(line) {
        let _ = eprintln!(rt; "  {text}");
    }
    Ok(())
}

// Prints the first nodes at and below a reference, or of all, and then how many they are.
fn print_nodes(
    rt: &(impl Eprint + AllocGlobal),
    program: &str,
    core: &JobCore,
    root: Option<&Key>,
) -> Result<(), AllocError> {
    let content = core.content();
    let mut line = Vec::new(rt.alloc());
    let mut count = 0;
    let (first, end) = match root {
        Some(root) => (Cut::Before(root), Some(Cut::Past(root))),
        None => (Cut::Start, None),
    };
    for (key, value) in walk_between(&content, first, end) {
        if count >= MOST_NODES {
            let _ = eprintln!(rt; "{program}: these are the first {count} committed nodes");
            return Ok(());
        }
        count += 1;
        print_node(rt, key, value.as_slice(), &mut line)?;
    }
    let nodes = if count == 1 { "node" } else { "nodes" };
    let _ = eprintln!(rt; "{program}: {count} committed {nodes}");
    Ok(())
}

// What a line asks for, if it can be read.
fn asked_by(alloc: Global, line: &[u8]) -> Option<Command> {
    let mut drafts = Drafts::new(alloc);
    match read_line(alloc, line, &mut drafts) {
        Ok((_job, command)) => Some(command),
        Err(_) => None,
    }
}

// The reference that a command names first, if it names one.
fn root_of(asked: &Option<Command>) -> Option<&Key> {
    match asked {
        Some(Command::Access(command)) => first_key(command),
        _ => None,
    }
}

/// Prints the first nodes at and below the reference that a line names first, or of the whole database where it names
/// none or can't be read. What can't be printed is left out, and so is what finds no memory.
pub fn print_look(rt: &(impl Eprint + AllocGlobal), program: &str, core: &JobCore, line: &[u8]) {
    let asked = asked_by(rt.alloc(), line);
    let _ = print_nodes(rt, program, core, root_of(&asked));
}
