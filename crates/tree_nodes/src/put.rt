// Putting a cell in.
ghost use Rattle.std.specs.Prelude.{suc};
ghost use Rattle.track.specs.Life.{CellInRange};
ghost use Rattle.node.specs.Inner.Made.{leaf_entry};
ghost use Rattle.tree_nodes.specs.Inner.Way.{CanPutIn, Way};
ghost use Rattle.tree_nodes.specs.Inner.Puts.{Puts};

use crate::afresh::refresh;
use crate::part::part_child;
use node::change_at::append_at;
use node::made::leaf_entry;
use table::nodes::{child_at, count_at, node_at};
use track::cell::Cell;
use track::meeting::{Bounds, cell_bounds};
use tree_choice::child::{best_child, better_child};
use words::FULL_NODE;

// Chooses the child of node i that takes these bounds in at the least cost; it has h levels beneath it. A full one is parted first.
pub fn way_down(t: &mut [i32], h: usize, i: usize, b: Bounds, minute: i32) -> usize
    requires { CanPutIn t.old minute (suc h) i }
    ensures { Way t.old minute h i result t.new }
{
    let k = best_child(node_at(t, i), b, minute);
    let child = child_at(t, i, k);
    if count_at(t, child) < FULL_NODE {
        return k;
    }
    part_child(t, h, i, k, minute);
    let last = count_at(t, i) - 1;
    better_child(node_at(t, i), k, last, b, minute)
}

// Puts the cell in below node i, which has h levels beneath it.
pub fn put_in(t: &mut [i32], h: usize, i: usize, c: Cell, minute: i32)
    requires { (CanPutIn t.old minute h i) × (CellInRange c) }
    ensures { Puts t.old minute h i (leaf_entry c) t.new }
{
    if h == 0 {
        append_at(t, i, leaf_entry(c));
        return;
    }
    let below = h - 1;
    let k = way_down(t, below, i, cell_bounds(c), minute);
    let child = child_at(t, i, k);
    put_in(t, below, child, c, minute);
    refresh(t, i, k, child, below == 0, minute);
}
