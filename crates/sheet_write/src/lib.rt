// Writing a table's sheet into lent bytes.
#![tactic(auto)]

ghost use Rattle.table.specs.Sound.{Sound};
ghost use Rattle.sheet_write.specs.Written.{WritesSheet};
ghost use Rattle.sheet_write.specs.Inner.Passes.{CellsCounted, CanPutSheet, PutsSheet};

use leafing::live::LiveCells;
use sheet::header::put_header;
use sheet::record::{put_record, total_for};
use table::header::clock;
use table::sound::is_sound;
use track::refusal::Refusal;

// How many cells are live.
fn count_live(t: &[i32]) -> usize
    requires { Sound t.now }
    ensures { CellsCounted t.now result }
{
    LiveCells::of(t).count()
}

// Writes the header and then the records of the n live cells, one after the other.
fn put_sheet(t: &[i32], bytes: &mut [u8], n: usize)
    requires { CanPutSheet t.now bytes.old n }
    ensures { PutsSheet t.now bytes.old n bytes.new }
{
    put_header(bytes, clock(t), n);
    for (k, c) in (0..n).zip(LiveCells::of(t)) {
        put_record(bytes, k, c);
    }
}

// Writes the sheet of the live cells to the first bytes. They are counted first, so that a buffer that is too short is left as it was.
pub fn write_sheet(t: &[i32], bytes: &mut [u8]) -> Result<usize, Refusal>
    ensures { WritesSheet t.now bytes.old result bytes.new }
{
    if !is_sound(t) {
        return Err(Refusal::NotSound);
    }
    let n = count_live(t);
    let total = total_for(n);
    if bytes.len() < total {
        return Err(Refusal::ShortBytes);
    }
    put_sheet(t, bytes, n);
    Ok(total)
}
