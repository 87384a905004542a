// The soundness test's pass over the tree, from a node down.
ghost use Rattle.std.specs.Prelude.{◌≤◌, ◌<◌, length};
ghost use Rattle.whole.specs.Tells.{Tells};
ghost use Rattle.words.specs.Layout.{entry_at, full_node};
ghost use Rattle.node.specs.Entry.{entries_of};
ghost use Rattle.table.specs.Header.{nodes_for, words_for, entries_at};
ghost use Rattle.table.specs.SoundTree.{EntrySound};
ghost use Rattle.table.specs.Inner.ScanParts.{ChildSound, NoneAfter, StampSound};
ghost use Rattle.table.specs.Inner.Scan.{EntryTaken, Entered, NodeCounted, PassOutcome};
ghost use Rattle.table.specs.Inner.Ready.{Ready};

use crate::header::is_node;
use crate::nodes::node_at;
use node::entry::{cell, child, child_word, count, is_counted, stamp};
use node::worked::is_worked_out;
use track::cell::cell_in_range;
use track::minute::is_minute;
use words::place;

// A table that is tested, with the capacity and the clock that it is tested by.
#[derive(Clone, Copy)]
pub struct Tested<'a> {
    pub table: &'a [i32],
    pub cells: usize,
    pub clock: i32,
    ghost room: { words_for cells ≤ length table.now },
}

// Whether no stamp of the node's entries is after `last`.
fn none_after(n: &[i32], last: i32) -> bool
    ensures { Tells result (NoneAfter (entries_of n.now) last) }
{
    (0..count(n)).all(|k| stamp(n, k) <= last)
}

// Whether entry k's stamp is a minute, not after the clock and not before any stamp in the child, which has `below` levels beneath it.
fn stamp_sound(n: &[i32], k: usize, child: &[i32], below: usize, clock: i32) -> bool
    requires { k < full_node }
    ensures { Tells result (StampSound below clock (entry_at n.now k) (entries_of child.now)) }
{
    let s = stamp(n, k);
    is_minute(s) && s <= clock && (below == 0 || none_after(child, s))
}

// Gathers the identifier of a leaf's entry k, if it is a cell in range and there is room for one more.
fn take_cell(n: &[i32], k: usize, cells: usize, keys: &mut [u64], m: usize) -> bool
    requires { (k < full_node) × (cells ≤ length keys.old) }
    ensures { EntryTaken cells (entry_at n.now k) keys.old m result keys.new }
{
    let c = cell(n, k);
    if !(cell_in_range(c) && m < cells) {
        return false;
    }
    keys[m] = place(c.id) as u64;
    true
}

impl Tested<'_> {
    // Whether entry k's child is a node of the table that is filled.
    fn child_sound(&self, n: &[i32], k: usize) -> bool
        requires { k < full_node }
        ensures { Tells result (ChildSound (entries_at self.now.table.now) self.now.cells (entry_at n.now k)) }
    {
        let z = child_word(n, k);
        is_node(self.cells, z) && 3 <= count(node_at(self.table, place(z)))
    }

    // Whether entry k of the node n is sound; its child has `below` levels beneath it.
    fn entry_sound(&self, below: usize, n: &[i32], k: usize) -> bool
        requires { k < full_node }
        ensures { Tells result (EntrySound (entries_at self.now.table.now) self.now.cells self.now.clock below (entry_at n.now k)) }
    {
        if !self.child_sound(n, k) {
            return false;
        }
        let c = node_at(self.table, child(n, k));
        stamp_sound(n, k, c, below, self.clock) && is_worked_out(n, k, c, below == 0)
    }

    // Marks the child of an inner entry k, if the entry is sound and the child was not met before.
    fn enter(&self, below: usize, n: &[i32], k: usize, marks: &mut [u8]) -> bool
        requires { (k < full_node) × (nodes_for self.now.cells ≤ length marks.old) }
        ensures { Entered (entries_at self.now.table.now) (NodeCounted self.now.table.now) self.now.cells self.now.clock below (entry_at n.now k) marks.old result marks.new }
    {
        if !self.entry_sound(below, n, k) {
            return false;
        }
        let c = child(n, k);
        if !is_counted(node_at(self.table, c)) {
            return false;
        }
        if marks[c] != 0 {
            return false;
        }
        marks[c] = 1;
        true
    }

    // The pass over the entries of a node, and over all beneath them. The entries are gone over in a loop, and a child is a call, with
    // one level less beneath it. It marks the nodes met and gathers the identifiers after the first m keys, and answers how many keys
    // there are then, or None where something is not sound.
    pub fn pass(
        &self,
        height: usize,
        node: usize,
        marks: &mut [u8],
        keys: &mut [u64],
        m: usize,
    ) -> Option<usize>
        requires { Ready self.now.table.now self.now.cells node marks.old keys.old m }
        ensures { PassOutcome (entries_at self.now.table.now) (NodeCounted self.now.table.now) self.now.cells self.now.clock height (entries_at self.now.table.now node) marks.old keys.old m result marks.new keys.new }
    {
        let n = node_at(self.table, node);
        let mut got = m;
        for k in 0..count(n) {
            if height == 0 {
                if !take_cell(n, k, self.cells, keys, got) {
                    return None;
                }
                got += 1;
            } else {
                if !self.enter(height - 1, n, k, marks) {
                    return None;
                }
                let c = child(n, k);
                got = self.pass(height - 1, c, marks, keys, got)?;
            }
        }
        Some(got)
    }
}
