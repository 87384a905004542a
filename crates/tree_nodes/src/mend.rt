// A node mended after an entry was taken out below one of its children.
ghost use Rattle.std.specs.Prelude.{◌≤◌, ◌<◌, length};
ghost use Rattle.table.specs.Header.{entries_at};
ghost use Rattle.tree_nodes.specs.Inner.PartChild.{child_at};
ghost use Rattle.tree_nodes.specs.Inner.Mend.{Beside, CanMend, CanPair, Mends};

use crate::afresh::refresh;
use crate::shift::move_entry;
use node::change_at::remove_at;
use table::nodes::{child_at, count_at};
use tree_choice::parting::FEWEST;

// A place beside place k: two numbers for two cases are plainer than `k.checked_sub(1).unwrap_or(1)`.
fn beside(k: usize) -> usize
    ensures { Beside k result }
{
    if k == 0 { 1 } else { k - 1 }
}

// The child at place k, which has too few entries, takes one of the child at place b.
fn borrow_one(t: &mut [i32], h: usize, i: usize, k: usize, b: usize, minute: i32)
    requires { (CanPair t.old minute h i k b) × (4 ≤ length (entries_at t.old (child_at (entries_at t.old) i b))) }
    ensures { Mends t.old minute h i k t.new }
{
    let leaf = h == 0;
    let child = child_at(t, i, k);
    let sibling = child_at(t, i, b);
    let last = count_at(t, sibling) - 1;
    move_entry(t, sibling, last, child);
    refresh(t, i, b, sibling, leaf, minute);
    refresh(t, i, k, child, leaf, minute);
}

// The child at place k, which has too few entries, gives both to the child at place b and is freed.
fn join(t: &mut [i32], h: usize, i: usize, k: usize, b: usize, minute: i32)
    requires { (CanPair t.old minute h i k b) × (length (entries_at t.old (child_at (entries_at t.old) i b)) < 4) }
    ensures { Mends t.old minute h i k t.new }
{
    let child = child_at(t, i, k);
    let sibling = child_at(t, i, b);
    move_entry(t, child, 1, sibling);
    move_entry(t, child, 0, sibling);
    refresh(t, i, b, sibling, h == 0, minute);
    remove_at(t, i, k);
}

// Mends node i, below whose entry k, with h levels beneath its child, an entry was taken out.
pub fn mend(t: &mut [i32], h: usize, i: usize, k: usize, minute: i32)
    requires { CanMend t.old minute h i k }
    ensures { Mends t.old minute h i k t.new }
{
    let child = child_at(t, i, k);
    if FEWEST <= count_at(t, child) {
        refresh(t, i, k, child, h == 0, minute);
        return;
    }
    let b = beside(k);
    let sibling = child_at(t, i, b);
    if FEWEST < count_at(t, sibling) {
        borrow_one(t, h, i, k, b, minute);
        return;
    }
    join(t, h, i, k, b, minute);
}
