// The walk over the nodes that a query opens.
ghost use Rattle.std.specs.Prelude.{◌≡◌, ◌<◌, drop};
ghost use Rattle.whole.specs.Tells.{Tells};
ghost use Rattle.words.specs.Layout.{entry_at, full_node};
ghost use Rattle.table.specs.Header.{entries_at};
ghost use Rattle.table.specs.SoundTree.{is_leaf};
ghost use Rattle.table.specs.Inner.Scan.{key_of};
ghost use Rattle.query.specs.Opened.{EntryMeets};
ghost use Rattle.query.specs.Inner.Opening.{CanTest, CanOpen, OpensEntries};

use crate::answer::Found;
use node::entry::{bounds, cell, child, count, until};
use table::nodes::node_at;
use track::meeting::meets;
use track::queries::Query;
use words::place;

// Whether entry k meets the query; its node has `height` levels beneath it.
fn entry_meets(node: &[i32], k: usize, height: usize, q: Query) -> bool
    requires { (k < full_node) × CanTest q (is_leaf height) (entry_at node.now k) }
    ensures { Tells result (EntryMeets q (is_leaf height) (entry_at node.now k)) }
{
    let leaf = height == 0;
    let last = until(node, k, leaf);
    meets(bounds(node, k, leaf), last, q)
}

// The identifier of a leaf's entry k, as a key.
fn key(node: &[i32], k: usize) -> u64
    requires { k < full_node }
    ensures { result ≡ key_of (entry_at node.now k) }
{
    let c = cell(node, k);
    place(c.id) as u64
}

// Tries the entries of node i from one on: a cell that meets is a hit, an inner entry that meets opens its child.
pub fn open_entries(
    t: &[i32],
    q: Query,
    height: usize,
    i: usize,
    from: usize,
    keys: &mut [u64],
    found: Found,
) -> Found
    requires { CanOpen t.now q height i from keys.old found }
    ensures { OpensEntries (entries_at t.now) q height (drop from (entries_at t.now i)) keys.old found result keys.new }
{
    let node = node_at(t, i);
    let mut found = found;
    for k in from..count(node) {
        if !entry_meets(node, k, height, q) {
            continue;
        }
        if height == 0 {
            keys[found.hits] = key(node, k);
            found.hits += 1;
        } else {
            found.opened += 1;
            found = open_entries(t, q, height - 1, child(node, k), 0, keys, found);
        }
    }
    found
}
