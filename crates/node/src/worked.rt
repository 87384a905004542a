// An inner entry worked out from its child at a minute, the stamp. In i64, so that any words of a child are taken.
ghost use Rattle.std.specs.Prelude.{◌≡◌, ◌<◌, ◌^◌};
ghost use Rattle.whole.specs.Tells.{Tells};
ghost use Rattle.whole.specs.Within.{Within};
ghost use Rattle.words.specs.Layout.{entry_at, full_node};
ghost use Rattle.track.specs.Numbers.{IsMinute};
ghost use Rattle.node.specs.Entry.{entries_of, stamp_of};
ghost use Rattle.node.specs.WorkedOut.{hull_on, latest_of, WorkedOut};
ghost use Rattle.node.specs.Inner.Pass.{column_at, outer, reading_of, extreme_of};

use crate::entry::{bounds, count, stamp, until};

// A column of a row at a minute: 0 and 1 the low and the high edge then, 2 and 3 the low and the high velocity. A column and an axis
// are numbers since they are places of the row and of the bounds: an enum would be turned back into one wherever it is used.
fn column_at(row: [i32; 4], column: usize, minute: i32) -> i64
    requires { (column < 4) × (IsMinute minute) }
    ensures { (result ≡ column_at column minute row) × (Within (2 ^ 42) result) }
{
    let first = i64::from(row[column]);
    if column < 2 {
        first + i64::from(row[column + 2]) * i64::from(minute)
    } else {
        first
    }
}

// The outer one of two numbers of a column: the lesser of low ones, the greater of high ones.
fn outer(column: usize, a: i64, b: i64) -> i64
    ensures { result ≡ outer column a b }
{
    if column % 2 == 0 { a.min(b) } else { a.max(b) }
}

// What entry k has in a column at the stamp.
fn reading(node: &[i32], k: usize, leaf: bool, axis: usize, column: usize, stamp: i32) -> i64
    requires { (k < full_node) × (axis < 2) × (column < 4) × (IsMinute stamp) }
    ensures { (result ≡ reading_of leaf axis column stamp (entry_at node.now k)) × (Within (2 ^ 42) result) }
{
    let b = bounds(node, k, leaf);
    column_at(b[axis], column, stamp)
}

// The outermost of all entries in a column at the stamp, 0 where there is none. By a loop: `map` and `reduce` took six times as long.
fn extreme(node: &[i32], leaf: bool, axis: usize, column: usize, stamp: i32) -> i64
    requires { (axis < 2) × (column < 4) × (IsMinute stamp) }
    ensures { (result ≡ extreme_of leaf axis column stamp (entries_of node.now)) × (Within (2 ^ 42) result) }
{
    let n = count(node);
    if n == 0 {
        return 0;
    }
    let mut found = reading(node, 0, leaf, axis, column, stamp);
    for k in 1..n {
        found = outer(column, found, reading(node, k, leaf, axis, column, stamp));
    }
    found
}

// The greatest expiry of all entries, 0 where there is none.
pub fn latest(node: &[i32], leaf: bool) -> i32
    ensures { result ≡ latest_of leaf (entries_of node.now) }
{
    (0..count(node))
        .map(|k| until(node, k, leaf))
        .max()
        .unwrap_or(0)
}

// The row of all entries on an axis: velocities the least low and the greatest high one, edges the least and the greatest at the stamp,
// kept at minute 0.
pub fn worked_row(node: &[i32], leaf: bool, axis: usize, stamp: i32) -> [i64; 4]
    requires { (axis < 2) × (IsMinute stamp) }
    ensures { result ≡ hull_on leaf axis stamp (entries_of node.now) }
{
    let minute = i64::from(stamp);
    let lowest = extreme(node, leaf, axis, 2, stamp);
    let highest = extreme(node, leaf, axis, 3, stamp);
    [
        extreme(node, leaf, axis, 0, stamp) - lowest * minute,
        extreme(node, leaf, axis, 1, stamp) - highest * minute,
        lowest,
        highest,
    ]
}

fn same_row(a: [i32; 4], b: [i64; 4]) -> bool
    ensures { Tells result (a ≡ b) }
{
    a.map(i64::from) == b
}

// Whether the parent's entry k is what the child comes to at the entry's stamp.
pub fn is_worked_out(parent: &[i32], k: usize, child: &[i32], leaf: bool) -> bool
    requires { (k < full_node) × (IsMinute (stamp_of (entry_at parent.now k))) }
    ensures { Tells result (WorkedOut leaf (entry_at parent.now k) (entries_of child.now)) }
{
    let minute = stamp(parent, k);
    let b = bounds(parent, k, false);
    let on_x = same_row(b[0], worked_row(child, leaf, 0, minute));
    let on_y = same_row(b[1], worked_row(child, leaf, 1, minute));
    on_x & on_y & (until(parent, k, false) == latest(child, leaf))
}
