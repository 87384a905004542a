// Reading a sheet into lent words, which become a table with the sheet's cells.
#![tactic(auto)]

ghost use Rattle.track.specs.Refusals.{First, number_of};
ghost use Rattle.sheet_read.specs.Reads.{read_reasons, IsRead, ReadsSheet};
ghost use Rattle.sheet_read.specs.Inner.ReadingSteps.{CanRead};
ghost use Rattle.sheet_read.specs.Inner.Filling.{CanFill, Filled};

use sheet::header::{clock_of, count_of, sheet_header_sound};
use sheet::judge::records_sound;
use sheet::record::cell_at;
use table::fresh::fresh;
use table::header::{is_capacity, set_clock, words_for};
use track::range::MOST_CELLS;
use track::refusal::Refusal;
use tree::root::put_cell;
use words::place;

// Whether these bytes can be read into these words as a table for so many cells. All is judged before a word is written, so a refusal leaves the words alone.
fn judge_reading(t: &[i32], cells: i32, bytes: &[u8]) -> Result<(), Refusal>
    ensures { First (read_reasons cells t.now bytes.now) (number_of result) }
{
    if !is_capacity(cells) {
        return Err(Refusal::BadCapacity);
    }
    let most = place(cells);
    if t.len() < words_for(most) {
        return Err(Refusal::ShortTable);
    }
    if !sheet_header_sound(bytes, MOST_CELLS) {
        return Err(Refusal::BadHeader);
    }
    if most < count_of(bytes) {
        return Err(Refusal::Full);
    }
    if !records_sound(bytes) {
        return Err(Refusal::BadRecord);
    }
    Ok(())
}

// Puts the cells of the sheet into the tree, which has none yet.
fn fill(t: &mut [i32], bytes: &[u8], minute: i32)
    requires { CanFill t.old bytes.now minute }
    ensures { Filled t.old bytes.now minute t.new }
{
    let n = count_of(bytes);
    for k in 0..n {
        put_cell(&mut *t, cell_at(bytes, k), minute);
    }
}

// Makes the table of a sheet that can be read.
fn replace(t: &mut [i32], cells: i32, bytes: &[u8])
    requires { CanRead cells t.old bytes.now }
    ensures { IsRead cells t.old bytes.now t.new }
{
    fresh(&mut *t, cells).unwrap();
    let clock = clock_of(bytes);
    fill(&mut *t, bytes, clock);
    set_clock(t, clock);
}

// Replaces the lent table by one for so many cells that holds the sheet's.
pub fn read_sheet(t: &mut [i32], cells: i32, bytes: &[u8]) -> Result<(), Refusal>
    ensures { ReadsSheet cells t.old bytes.now result t.new }
{
    judge_reading(t, cells, bytes)?;
    replace(t, cells, bytes);
    Ok(())
}
