// A full node parted.
ghost use Rattle.tree_nodes.specs.Inner.PartChild.{CanPartChild, Parted};

use crate::afresh::{entry_above, refresh};
use crate::free::free_node;
use crate::shift::move_marked;
use node::change_at::append_at;
use table::header::nodes;
use table::nodes::{child_at, node_at};
use tree_choice::parting::parting;

// Parts the full child of node i's entry k, which has h levels beneath it: some of its entries go to a free node, which is entered behind the others.
pub fn part_child(t: &mut [i32], h: usize, i: usize, k: usize, minute: i32)
    requires { CanPartChild t.old minute h i k }
    ensures { Parted t.old minute h i k t.new }
{
    let leaf = h == 0;
    let full = child_at(t, i, k);
    let node = free_node(t, nodes(t)).unwrap();
    let marks = parting(node_at(t, full), leaf, minute);
    move_marked(t, full, node, marks);
    refresh(t, i, k, full, leaf, minute);
    let e = entry_above(t, node, leaf, minute);
    append_at(t, i, e);
}
