// A cell read from a line. Nothing but ranges is judged while the numbers are read: the line is then written again from the cell
// that they give, and only the same bytes are accepted. So it need not be told which spelling was wrong, or that a position or a
// velocity did not come out whole.
ghost use Rattle.std.specs.Prelude.{◌≡◌, pos, ◌≤ℤ◌};
ghost use Rattle.whole.specs.Tells.{Tells};
ghost use Rattle.track.specs.Numbers.{IsMinute, IsVelocity};
ghost use Rattle.decimal.specs.Inner.NumberRead.{NumberRead};
ghost use Rattle.wkt.specs.TrackRead.{ReadsTrack};
ghost use Rattle.wkt.specs.Inner.TrackFound.{units_of, velocity_of, kept_of, PointRead, PointsRead, InOrder, CellThrough};

use crate::line::{LONGEST, put_line};
use crate::point::Point;
use decimal::reading::read_number;
use track::cell::{Cell, cell_in_range};
use track::minute::{Minute, is_minute};
use track::range::is_velocity;
use track::refusal::Refusal;

// The number at a cursor, which may be past the end: its value and the cursor past it.
fn number_at(line: &[u8], at: usize) -> Option<(i32, usize)>
    ensures { NumberRead line.now at result }
{
    if line.len() < at {
        return None;
    }
    read_number(line, at)
}

// The point at a cursor, three numbers with a byte between each two, and the cursor past it.
fn point_at(line: &[u8], at: usize) -> Option<(Point, usize)>
    ensures { PointRead line.now at result }
{
    let (x, after_x) = number_at(line, at)?;
    let (y, after_y) = number_at(line, after_x + 1)?;
    let (minute, end) = number_at(line, after_y + 1)?;
    Some((Point { x, y, minute }, end))
}

// The two points of a line: the first after `LINESTRING M (`, which has fourteen bytes, the other after a comma and a space.
fn points(line: &[u8]) -> Option<(Point, Point)>
    ensures { PointsRead line.now result }
{
    let (first, end) = point_at(line, 14)?;
    let (last, _) = point_at(line, end + 2)?;
    Some((first, last))
}

// Metres in units, rounded to 0 where they are not whole: the comparison of the lines finds that.
fn units(metres: i32) -> i32
    ensures { result ≡ units_of metres }
{
    metres / 10
}

// The velocity that leads from the one position to the other in so many minutes, rounded in the same way.
fn velocity(from: i32, to: i32, minutes: i32) -> i32
    requires { (pos 1 ≤ℤ minutes) × (minutes ≤ℤ pos 1440) }
    ensures { result ≡ velocity_of from to minutes }
{
    (units(to) - units(from)) / minutes
}

// Where what stands so many metres out in that minute is kept.
fn kept_at(metres: i32, v: i32, minute: i32) -> i32
    requires { (IsVelocity v) × (IsMinute minute) }
    ensures { result ≡ kept_of metres v minute }
{
    units(metres) - v * minute
}

// Whether two points have minutes, the one before the other.
fn in_order(first: Point, last: Point) -> bool
    ensures { Tells result (InOrder first last) }
{
    is_minute(first.minute) & is_minute(last.minute) & (first.minute < last.minute)
}

// The cell that goes through two points, if it is in range. Velocities are tried first, so that no product with a minute can be too large.
fn cell_through(id: i32, first: Point, last: Point) -> Option<Cell>
    ensures { CellThrough id first last result }
{
    if !in_order(first, last) {
        return None;
    }
    let minutes = last.minute - first.minute;
    let vx = velocity(first.x, last.x, minutes);
    let vy = velocity(first.y, last.y, minutes);
    let slow = is_velocity(vx) & is_velocity(vy);
    if !slow {
        return None;
    }
    let c = Cell {
        id,
        x: kept_at(first.x, vx, first.minute),
        vx,
        y: kept_at(first.y, vy, first.minute),
        vy,
        expiry: Minute { at: last.minute },
    };
    if !cell_in_range(c) {
        return None;
    }
    Some(c)
}

// The cell with this identifier whose line this is.
pub fn read_track(id: i32, line: &[u8]) -> Result<Cell, Refusal>
    ensures { ReadsTrack id line.now result }
{
    let Some((first, last)) = points(line) else {
        return Err(Refusal::NoTrack);
    };
    let Some(c) = cell_through(id, first, last) else {
        return Err(Refusal::NoTrack);
    };
    let mut own = [0; LONGEST];
    let n = put_line(&mut own, first.minute, c);
    let same = line == &own[..n];
    if !same {
        return Err(Refusal::NoTrack);
    }
    Ok(c)
}
