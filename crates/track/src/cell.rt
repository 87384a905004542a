ghost use Rattle.std.specs.Prelude.{◌≡◌};
ghost use Rattle.whole.specs.Tells.{Tells};
ghost use Rattle.track.specs.Numbers.{IsPosition, IsVelocity, IsMinute, kept};
ghost use Rattle.track.specs.Life.{CellInRange};
ghost use Rattle.track.specs.Report.{ReportInRange, Reports};

use crate::minute::{Minute, is_minute};
use crate::range::{is_identifier, is_kept, is_position, is_velocity};
use crate::refusal::Refusal;
use crate::report::Report;

// A storm cell, kept at minute 0; its fields stand in the order of a sheet's record.
#[derive(Clone, Copy, Debug, Default, PartialEq, Eq)]
pub struct Cell {
    pub id: i32,
    pub x: i32,
    pub vx: i32,
    pub y: i32,
    pub vy: i32,
    pub expiry: Minute,
}

// Where what stands at `at` in minute `t` stood at minute 0.
pub fn kept(at: i32, v: i32, t: i32) -> i32
    requires { (IsPosition at) × (IsVelocity v) × (IsMinute t) }
    ensures { result ≡ kept at v t }
{
    at - v * t
}

fn report_in_range(r: Report) -> bool
    ensures { Tells result (ReportInRange r) }
{
    is_identifier(r.id)
        & is_position(r.x)
        & is_position(r.y)
        & is_velocity(r.vx)
        & is_velocity(r.vy)
        & is_minute(r.minute)
        & is_minute(r.expiry)
}

// Whether a cell that is kept has the ranges of one.
pub fn cell_in_range(c: Cell) -> bool
    ensures { Tells result (CellInRange c) }
{
    is_identifier(c.id)
        & is_kept(c.x)
        & is_velocity(c.vx)
        & is_kept(c.y)
        & is_velocity(c.vy)
        & is_minute(c.expiry.at)
}

impl Cell {
    // The cell of a report that is made when the clock stands at `clock`.
    pub fn reported(clock: i32, r: Report) -> Result<Cell, Refusal>
        ensures { Reports clock r result }
    {
        if !report_in_range(r) {
            return Err(Refusal::OutOfRange);
        }
        if r.minute < clock {
            return Err(Refusal::BeforeClock);
        }
        if r.expiry <= r.minute {
            return Err(Refusal::ExpiresFirst);
        }
        Ok(Cell {
            id: r.id,
            x: kept(r.x, r.vx, r.minute),
            vx: r.vx,
            y: kept(r.y, r.vy, r.minute),
            vy: r.vy,
            expiry: Minute { at: r.expiry },
        })
    }
}
