// Which child a cell enters: that whose area integral grows least by it, as in the paper on the TPR-tree, §3.4.
ghost use Rattle.std.specs.Prelude.{◌≡◌, ◌<◌};
ghost use Rattle.words.specs.Layout.{full_node};
ghost use Rattle.node.specs.Entry.{entry_count};
ghost use Rattle.tree_choice.specs.Child.{child_cost, Cheapest, CheaperOf};

use crate::area::Cover;
use node::entry::{bounds, count};
use track::meeting::Bounds;

// What it costs a child to take a cell in: the growth of its area integral, and the integral that it had.
#[derive(Clone, Copy, PartialEq, Eq, PartialOrd, Ord)]
pub struct Cost {
    pub growth: i64,
    pub before: i64,
}

// What it costs entry k to take in what has these bounds.
fn cost_of(node: &[i32], k: usize, b: Bounds, minute: i32) -> Cost
    requires { k < full_node }
    ensures { result ≡ child_cost node.now k b minute }
{
    let own = Cover::of(bounds(node, k, false), minute);
    let both = own.with(Cover::of(b, minute));
    let before = own.integral();
    Cost {
        growth: both.integral() - before,
        before,
    }
}

// The entry that takes in these bounds at the least cost, the first of several.
pub fn best_child(node: &[i32], b: Bounds, minute: i32) -> usize
    requires { 0 < entry_count node.now }
    ensures { Cheapest node.now b minute result }
{
    let mut best = 0;
    let mut least = cost_of(node, 0, b, minute);
    for k in 1..count(node) {
        let next = cost_of(node, k, b, minute);
        if next < least {
            best = k;
            least = next;
        }
    }
    best
}

// Which of two entries takes in these bounds at the lesser cost, the first where they are equal.
pub fn better_child(node: &[i32], j: usize, k: usize, b: Bounds, minute: i32) -> usize
    requires { (j < full_node) × (k < full_node) }
    ensures { CheaperOf node.now j k b minute result }
{
    let own = cost_of(node, j, b, minute);
    let other = cost_of(node, k, b, minute);
    if other < own { k } else { j }
}
