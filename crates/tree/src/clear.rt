// Clearing out the cells that go.
ghost use Rattle.tree.specs.Inner.Holding.{Holding};
ghost use Rattle.tree.specs.Inner.Settle.{IsLoose, Settles};
ghost use Rattle.tree.specs.Inner.Clear.{ClearsOne, Cleared};

use node::change_at::keep_at;
use table::header::{height, root, set_root};
use table::nodes::{child_at, count_at};
use tree_nodes::take::take_out;

// An inner root with one entry gives way to its child.
fn settle_root(t: &mut [i32])
    requires { IsLoose t.old }
    ensures { Settles t.old t.new }
{
    let h = height(t);
    if h == 0 {
        return;
    }
    let i = root(t);
    if 2 <= count_at(t, i) {
        return;
    }
    let child = child_at(t, i, 0);
    keep_at(t, i, 0);
    set_root(t, child, h - 1);
}

// Clears out one cell that goes, and tells whether there is one.
fn clear_one(t: &mut [i32], minute: i32, id: i32) -> bool
    requires { Holding t.old minute }
    ensures { ClearsOne t.old minute id result t.new }
{
    let h = height(t);
    let i = root(t);
    if !take_out(t, h, i, 0, minute, id) {
        return false;
    }
    settle_root(t);
    true
}

// Clears out the cells that do not live at the minute, and the one with this identifier.
pub fn clear(t: &mut [i32], minute: i32, id: i32)
    requires { Holding t.old minute }
    ensures { Cleared t.old minute id t.new }
{
    // A `while`, since how many go is not known before.
    while clear_one(t, minute, id) {}
}
