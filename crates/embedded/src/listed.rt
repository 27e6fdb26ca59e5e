//! The listing, a node at a time.
ghost use Rattle.std.specs.Prelude.{◌≡◌, None, Some, if◌then◌else◌, IfOk, OnErr, OnOk};
ghost use Rattle.std.specs.Option.{MatchOption};
ghost use Rattle.listing.specs.Listing.{node_text};
ghost use Rattle.embedded.specs.Calls.{fits, next_node, IsCopied, IsListCall, IsNodeCopied, IsRestart, IsNodeFound, HasNextNode};

use crate::copied::copy_text;
use crate::moments::seen;
use crate::{Embedded, Outcome};
use collation::Text;
use globals::{Cut, OrderedView};
use key_codec::Key;
use m_text::{write_key, write_literal};
use refusal::Refusal;
use std::alloc::AllocError;

// A node's line in the place of what stands in the buffer.
fn write_node(key: &Key, value: &Text, text: &mut Vec<u8>) -> Result<(), AllocError>
    ensures { OnOk result (text.new.items ≡ node_text (key.now, value.now)) }
{
    text.clear();
    write_key(key, text)?;
    text.push(b'=')?;
    write_literal(value.as_slice(), text)?;
    text.push(b'\n')?;
    Ok(())
}

// The node behind the one that was listed last.
fn next_behind<'v, V: OrderedView>(view: &'v V, listed: &Option<Key>) -> Option<(&'v Key, &'v Text)>
    ensures { MatchOption result (next_node listed.now (V.content view.now) ≡ None)
        (λ node. next_node listed.now (V.content view.now) ≡ Some (node.0.now, node.1.now)) }
{
    match listed {
        Some(key) => view.next(Cut::After(key), None),
        None => view.next(Cut::Start, None),
    }
}

// That node's line in the place of what stands in the buffer, and its reference.
fn write_next<V: OrderedView>(
    view: &V,
    listed: &Option<Key>,
    text: &mut Vec<u8>,
) -> Result<Option<Key>, AllocError>
    ensures ok { IfOk result (λ found. IsNodeFound (V.content view.now) listed.now found text.new.items) }
    ensures err { OnErr result (HasNextNode (V.content view.now) listed.now) }
{
    let Some((key, value)) = next_behind(view, listed) else {
        return Ok(None);
    };
    write_node(key, value, text)?;
    let key = key.clone()?;
    Ok(Some(key))
}

// Copies a node's line, and counts the node as listed where it fits.
fn copy_listed(
    key: Key,
    listed: &mut Option<Key>,
    text: &[u8],
    buffer: &mut [u8],
    wanted: &mut usize,
) -> Outcome
    ensures copied { IsCopied text.now Outcome.Done result buffer.old buffer.new wanted.new }
    ensures listed { listed.new ≡ (if fits text.now buffer.old then Some key else listed.old) }
{
    if copy_text(text, buffer, wanted) {
        *listed = Some(key);
        Outcome::Done
    } else {
        drop(key);
        Outcome::BufferTooShort
    }
}

// Copies the line of a view's node behind the one that was listed last, and counts it as listed where it fits.
fn copy_next<V: OrderedView>(
    view: &V,
    listed: &mut Option<Key>,
    text: &mut Vec<u8>,
    buffer: &mut [u8],
    wanted: &mut usize,
) -> Outcome
    ensures { IsNodeCopied (V.content view.now) listed.old listed.new result buffer.old buffer.new wanted.new }
{
    *wanted = 0;
    match write_next(view, listed, text) {
        Ok(Some(key)) => copy_listed(key, listed, text, buffer, wanted),
        Ok(None) => Outcome::AtEnd,
        Err(_) => Outcome::Refused(Refusal::OutOfMemory),
    }
}

impl Embedded {
    /// The next node to list is the first.
    pub fn list_from_start(&mut self)
        ensures { IsRestart self.old self.new }
    {
        self.listed = None;
    }

    /// Copies the line of the node behind the one that was listed last, in the database of a moment, with a byte 10 at
    /// its end; then that node counts as listed. Its length is told. It is no command, as `look`.
    ///
    /// `AtEnd` where no node is left, `BufferTooShort` where the buffer is shorter than the line, `OutOfMemory`;
    /// `BadJob` and `NoTransaction` as `look`: then nothing is copied, and the node is still the next.
    pub fn copy_next_node(&mut self, moment: u64, buffer: &mut [u8], wanted: &mut usize) -> Outcome
        ensures { IsListCall moment self.old self.new result buffer.old buffer.new wanted.new }
    {
        match seen(&self.core, moment) {
            Ok(view) => copy_next(&view, &mut self.listed, &mut self.text, buffer, wanted),
            Err(refusal) => {
                *wanted = 0;
                Outcome::Refused(refusal)
            }
        }
    }
}
