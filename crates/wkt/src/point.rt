// A cell's point at a minute, and its bytes.
ghost use Rattle.std.specs.Prelude.{◌≡◌, ◌+◌, ◌≤◌, length};
ghost use Rattle.track.specs.Numbers.{IsMinute, IsVelocity, IsKept};
ghost use Rattle.track.specs.Life.{CellInRange};
ghost use Rattle.decimal.specs.Inner.PutBytes.{Put};
ghost use Rattle.wkt.specs.Metres.{metres, stands_at};
ghost use Rattle.wkt.specs.TrackLine.{PointText};
ghost use Rattle.wkt.specs.Inner.PointPut.{longest_point, PointInRange};

use decimal::spelling::{put_signed, put_text};
use track::cell::Cell;

// A position in whole metres, and a minute.
#[derive(Clone, Copy)]
pub struct Point {
    pub x: i32,
    pub y: i32,
    pub minute: i32,
}

// Where what is kept at so many units and goes `v` units a minute is in that minute, in metres.
fn metres(kept: i32, v: i32, minute: i32) -> i32
    requires { (IsKept kept) × (IsVelocity v) × (IsMinute minute) }
    ensures { result ≡ metres kept v minute }
{
    10 * (kept + v * minute)
}

pub fn stands_at(c: Cell, minute: i32) -> Point
    requires { (CellInRange c) × (IsMinute minute) }
    ensures { result ≡ stands_at c minute }
{
    Point {
        x: metres(c.x, c.vx, minute),
        y: metres(c.y, c.vy, minute),
        minute,
    }
}

// Writes `x y m` from a place on, and answers the place past it.
pub fn put_point(out: &mut [u8], at: usize, p: Point) -> usize
    requires { (PointInRange p) × (at + longest_point ≤ length out.old) }
    ensures { (Put (PointText p) out.old at out.new result) × (result ≤ at + longest_point) }
{
    let after_x = put_signed(out, at, p.x);
    let y_at = put_text(out, after_x, b" ");
    let after_y = put_signed(out, y_at, p.y);
    let m_at = put_text(out, after_y, b" ");
    put_signed(out, m_at, p.minute)
}
