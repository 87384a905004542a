// A cell's line of well-known text, written. `put_line` and what it calls write to the first bytes and answer how many.
ghost use Rattle.std.specs.Prelude.{◌≤◌, length};
ghost use Rattle.track.specs.Numbers.{IsMinute};
ghost use Rattle.track.specs.Life.{LivesAt, CellInRange};
ghost use Rattle.decimal.specs.Inner.PutBytes.{EndsBy, Put};
ghost use Rattle.wkt.specs.TrackLine.{TrackForm, LineOf};
ghost use Rattle.wkt.specs.Inner.PointPut.{PointInRange};
ghost use Rattle.wkt.specs.Inner.LinePut.{longest, LineLong};

use crate::point::{Point, put_point, stands_at};
use decimal::spelling::put_text;
use track::cell::Cell;

// The longest line has so many bytes, its line feed among them.
pub const LONGEST: usize = 66;

fn put_track_form(out: &mut [u8], first: Point, last: Point) -> usize
    requires { (PointInRange first) × (PointInRange last) × (longest ≤ length out.old) }
    ensures { Put (TrackForm first last) out.old 0 out.new result }
{
    let from = put_text(out, 0, b"LINESTRING M (");
    let between = put_point(out, from, first);
    let to = put_text(out, between, b", ");
    let end = put_point(out, to, last);
    put_text(out, end, b")\n")
}

pub fn put_line(out: &mut [u8], clock: i32, c: Cell) -> usize
    requires { (CellInRange c) × (IsMinute clock) × (LivesAt clock c) × (longest ≤ length out.old) }
    ensures { Put (LineOf clock c) out.old 0 out.new result }
{
    let here = stands_at(c, clock);
    let there = stands_at(c, c.expiry.at);
    put_track_form(out, here, there)
}

// How many bytes the line has.
pub fn line_length(clock: i32, c: Cell) -> usize
    requires { (CellInRange c) × (IsMinute clock) × (LivesAt clock c) }
    ensures { LineLong clock c result }
{
    let mut own = [0; LONGEST];
    put_line(&mut own, clock, c)
}

// Writes the line from a place on, where it may have just the room that it takes, and answers the place past it.
pub fn put_line_at(out: &mut [u8], at: usize, clock: i32, c: Cell) -> usize
    requires { (CellInRange c) × (IsMinute clock) × (LivesAt clock c) × EndsBy (LineOf clock c) at (length out.old) }
    ensures { Put (LineOf clock c) out.old at out.new result }
{
    let mut own = [0; LONGEST];
    let n = put_line(&mut own, clock, c);
    put_text(out, at, &own[..n])
}
