// Taking a cell out.
ghost use Rattle.std.specs.Prelude.{[], ◌<◌, length, get_or};
ghost use Rattle.whole.specs.Tells.{Tells};
ghost use Rattle.words.specs.Layout.{InTable};
ghost use Rattle.node.specs.Entry.{cell_of};
ghost use Rattle.table.specs.Header.{entries_at};
ghost use Rattle.tree_laws.specs.Inner.Goes.{Goes};
ghost use Rattle.tree_nodes.specs.Inner.Takes.{CanTake, Takes};

use crate::mend::mend;
use node::change_at::remove_at;
use node::entry::cell;
use table::nodes::{child_at, count_at, node_at};
use track::cell::Cell;

// Whether the cell does not live at the minute, or is the one with this identifier.
fn goes(c: Cell, minute: i32, id: i32) -> bool
    ensures { Tells result (Goes minute id c) }
{
    c.expiry.at <= minute || c.id == id
}

// Whether the cell goes that entry k of the leaf i is.
pub fn goes_at(t: &[i32], i: usize, k: usize, minute: i32, id: i32) -> bool
    requires { (InTable t.now i) × (k < length (entries_at t.now i)) }
    ensures { Tells result (Goes minute id (cell_of (get_or (entries_at t.now i) k []))) }
{
    goes(cell(node_at(t, i), k), minute, id)
}

// Takes out the first cell that goes, of those below node i from its entry k on, and tells whether there is one. The node has h levels beneath it.
pub fn take_out(t: &mut [i32], h: usize, i: usize, k: usize, minute: i32, id: i32) -> bool
    requires { CanTake t.old minute h i }
    ensures { Takes t.old minute id h i k result t.new }
{
    for at in k..count_at(t, i) {
        if h == 0 {
            if goes_at(t, i, at, minute, id) {
                remove_at(t, i, at);
                return true;
            }
        } else {
            let child = child_at(t, i, at);
            if take_out(t, h - 1, child, 0, minute, id) {
                mend(t, h - 1, i, at, minute);
                return true;
            }
        }
    }
    false
}
