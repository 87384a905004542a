// The entries that are put in: a leaf's entry, made from its cell, and an inner entry, made from what its child comes to at a minute.
ghost use Rattle.std.specs.Prelude.{◌≡◌, ◌<◌, ◌^◌};
ghost use Rattle.track.specs.Numbers.{IsMinute, IsEdge};
ghost use Rattle.track.specs.Inner.Small.{RowInRange};
ghost use Rattle.node.specs.Entry.{entries_of};
ghost use Rattle.node.specs.WorkedOut.{latest_of};
ghost use Rattle.node.specs.Inner.Made.{worked_out_bounds, inner_entry, leaf_entry, InRangeAt};

use crate::worked::{latest, worked_row};
use track::cell::Cell;
use track::meeting::Bounds;
use words::{Entry, word_of};

fn narrow(z: i64) -> i32
    requires { IsEdge z }
    ensures { result ≡ z }
{
    z as i32
}

fn narrow_row(r: [i64; 4]) -> [i32; 4]
    requires { RowInRange r }
    ensures { result ≡ r }
{
    r.map(narrow)
}

// What a node's entries come to at a minute: their bounds, a row for x and a row for y, and the greatest expiry.
pub fn work_out(child: &[i32], leaf: bool, minute: i32) -> (Bounds, i32)
    requires { (IsMinute minute) × (InRangeAt leaf minute (entries_of child.now)) }
    ensures bounds { result.0 ≡ worked_out_bounds leaf minute (entries_of child.now) }
    ensures until { result.1 ≡ latest_of leaf (entries_of child.now) }
{
    let x = narrow_row(worked_row(child, leaf, 0, minute));
    let y = narrow_row(worked_row(child, leaf, 1, minute));
    ([x, y], latest(child, leaf))
}

// The inner entry above a child, with its bounds and the greatest expiry beneath, worked out at the stamp.
pub fn inner_entry(child: usize, b: Bounds, until: i32, stamp: i32) -> Entry
    requires { child < 2 ^ 31 }
    ensures { result ≡ inner_entry child b until stamp }
{
    let [x, y] = b;
    [
        word_of(child),
        x[0],
        x[1],
        x[2],
        x[3],
        y[0],
        y[1],
        y[2],
        y[3],
        until,
        stamp,
    ]
}

// The entry of a cell. The words after the cell's six are read by nobody.
pub fn leaf_entry(c: Cell) -> Entry
    ensures { result ≡ leaf_entry c }
{
    [c.id, c.x, c.vx, c.y, c.vy, c.expiry.at, 0, 0, 0, 0, 0]
}
