// Writing a table's live cells as lines of well-known text into lent bytes.
#![tactic(auto)]

ghost use Rattle.table.specs.Sound.{Sound};
ghost use Rattle.charting.specs.Charted.{ChartsTracks};
ghost use Rattle.charting.specs.Inner.TextPasses.{TextMeasured, CanPutText, PutsText};

use leafing::live::LiveCells;
use table::header::clock;
use table::sound::is_sound;
use track::refusal::Refusal;
use wkt::line::{line_length, put_line_at};

// How many bytes the lines of the live cells have.
fn measure(t: &[i32]) -> usize
    requires { Sound t.now }
    ensures { TextMeasured t.now result }
{
    let minute = clock(t);
    let mut total = 0;
    for c in LiveCells::of(t) {
        total += line_length(minute, c);
    }
    total
}

// Writes the lines of the live cells one after the other. They have so many bytes in all.
fn put_lines(t: &[i32], bytes: &mut [u8], total: usize)
    requires { CanPutText t.now bytes.old total }
    ensures { PutsText t.now bytes.old total bytes.new }
{
    let minute = clock(t);
    let mut at = 0;
    for c in LiveCells::of(t) {
        at = put_line_at(bytes, at, minute, c);
    }
    prove_eq!(at, total);
}

// Writes the text of the live cells to the first bytes. It is measured first, so that a buffer that is too short is left as it was.
pub fn chart(t: &[i32], bytes: &mut [u8]) -> Result<usize, Refusal>
    ensures { ChartsTracks t.now bytes.old result bytes.new }
{
    if !is_sound(t) {
        return Err(Refusal::NotSound);
    }
    let total = measure(t);
    if bytes.len() < total {
        return Err(Refusal::ShortBytes);
    }
    put_lines(t, bytes, total);
    Ok(total)
}
