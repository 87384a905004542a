// Whether bytes are a well-formed sheet.
ghost use Rattle.whole.specs.Tells.{Tells};
ghost use Rattle.sheet.specs.WellFormed.{RecordsSound, Judges};
ghost use Rattle.sheet.specs.Inner.Records.{Follows};

use crate::header::{clock_of, count_of, sheet_header_sound};
use crate::record::cell_at;
use track::cell::{Cell, cell_in_range};
use track::refusal::Refusal;

// Whether a cell may follow one whose identifier is `last`; 0 where none goes before.
fn follows(c: Cell, clock: i32, last: i32) -> bool
    ensures { Tells result (Follows clock last c) }
{
    let in_life = clock < c.expiry.at;
    let rises = last < c.id;
    cell_in_range(c) & in_life & rises
}

// Whether each record is in range and in life at the clock, and the identifiers rise.
pub fn records_sound(bytes: &[u8]) -> bool
    ensures { Tells result (RecordsSound bytes.now) }
{
    let n = count_of(bytes);
    let clock = clock_of(bytes);
    let mut last = 0;
    for k in 0..n {
        let c = cell_at(bytes, k);
        if !follows(c, clock, last) {
            return false;
        }
        last = c.id;
    }
    true
}

// The header is judged before the records, and every byte before anything is made of them.
pub fn judge(bytes: &[u8], limit: usize) -> Result<(), Refusal>
    ensures { Judges limit bytes.now result }
{
    if !sheet_header_sound(bytes, limit) {
        return Err(Refusal::BadHeader);
    }
    if !records_sound(bytes) {
        return Err(Refusal::BadRecord);
    }
    Ok(())
}
