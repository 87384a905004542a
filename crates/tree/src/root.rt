// The root of a table's tree: it grows, and a cell is put in below it. How it gives way is in clear.rt.
ghost use Rattle.track.specs.Life.{CellInRange};
ghost use Rattle.node.specs.Inner.Made.{leaf_entry};
ghost use Rattle.tree.specs.Inner.Grow.{CanGrow, Grown};
ghost use Rattle.tree.specs.Inner.PutCell.{HasRoom, PutCell};

use node::change_at::append_at;
use table::header::{height, nodes, root, set_root};
use table::nodes::count_at;
use track::cell::Cell;
use tree_nodes::afresh::entry_above;
use tree_nodes::free::free_node;
use tree_nodes::part::part_child;
use tree_nodes::put::put_in;
use words::FULL_NODE;

// Puts a new root above the full one, which is parted.
fn grow(t: &mut [i32], minute: i32)
    requires { CanGrow t.old minute }
    ensures { Grown t.old minute t.new }
{
    let old = root(t);
    let h = height(t);
    let above = free_node(t, nodes(t)).unwrap();
    let e = entry_above(t, old, h == 0, minute);
    append_at(t, above, e);
    set_root(t, above, h + 1);
    part_child(t, h, above, 0, minute);
}

// Makes room in the root.
fn make_room(t: &mut [i32], minute: i32)
    requires { HasRoom t.old minute }
    ensures { Grown t.old minute t.new }
{
    if count_at(t, root(t)) == FULL_NODE {
        grow(t, minute);
    }
}

// Puts the cell into the tree.
pub fn put_cell(t: &mut [i32], c: Cell, minute: i32)
    requires { (HasRoom t.old minute) × (CellInRange c) }
    ensures { PutCell t.old minute (leaf_entry c) t.new }
{
    make_room(t, minute);
    let h = height(t);
    let i = root(t);
    put_in(t, h, i, c, minute);
}
