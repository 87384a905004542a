// Reports and drops: the calls that change a table.
ghost use Rattle.std.specs.Prelude.{◌≡◌};
ghost use Rattle.whole.specs.Tells.{Tells};
ghost use Rattle.track.specs.Refusals.{number_of};
ghost use Rattle.table.specs.Sound.{Sound};
ghost use Rattle.tree.specs.Steps.{DropInRange, ReportSteps, DropSteps};
ghost use Rattle.tree.specs.Inner.StayingCells.{many_stay};
ghost use Rattle.tree.specs.Inner.Outcomes.{CanReport, CellSteps};

use crate::clear::clear;
use crate::count::staying;
use crate::root::put_cell;
use table::header::{capacity, clock, height, root, set_clock};
use table::sound::is_sound;
use track::cell::Cell;
use track::minute::is_minute;
use track::range::is_identifier;
use track::refusal::Refusal;
use track::report::Report;

// How many cells stay in a sound table.
fn staying_in(t: &[i32], minute: i32, id: i32) -> usize
    requires { Sound t.now }
    ensures { result ≡ many_stay t.now minute id }
{
    staying(t, height(t), root(t), 0, minute, id)
}

// Puts the cell of an accepted report in, unless as many others live as there is room for.
fn take_in(t: &mut [i32], c: Cell, minute: i32) -> Result<(), Refusal>
    requires { CanReport t.old minute c }
    ensures { CellSteps t.old minute c (number_of result) t.new }
{
    if capacity(t) <= staying_in(t, minute, c.id) {
        return Err(Refusal::Full);
    }
    clear(&mut *t, minute, c.id);
    put_cell(&mut *t, c, minute);
    set_clock(t, minute);
    Ok(())
}

// Puts a cell in, in the place of a live one of the same identifier, and sets the clock.
pub fn report(t: &mut [i32], r: Report) -> Result<(), Refusal>
    ensures { ReportSteps t.old r (number_of result) t.new }
{
    if !is_sound(t) {
        return Err(Refusal::NotSound);
    }
    let c = Cell::reported(clock(t), r)?;
    take_in(t, c, r.minute)
}

fn drop_in_range(id: i32, minute: i32) -> bool
    ensures { Tells result (DropInRange id minute) }
{
    is_identifier(id) && is_minute(minute)
}

// Takes a live cell out and sets the clock.
pub fn drop(t: &mut [i32], id: i32, minute: i32) -> Result<(), Refusal>
    ensures { DropSteps t.old id minute (number_of result) t.new }
{
    if !is_sound(t) {
        return Err(Refusal::NotSound);
    }
    if !drop_in_range(id, minute) {
        return Err(Refusal::OutOfRange);
    }
    if minute < clock(t) {
        return Err(Refusal::BeforeClock);
    }
    // No cell has the identifier 0, so fewer stay beside this one only if it is there.
    if staying_in(t, minute, 0) <= staying_in(t, minute, id) {
        return Err(Refusal::NotLive);
    }
    clear(&mut *t, minute, id);
    set_clock(t, minute);
    Ok(())
}
