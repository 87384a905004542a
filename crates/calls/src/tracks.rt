// The calls on tracks as lines of text: those of a table written, one read.
ghost use Rattle.calls.specs.TrackCalls.{TracksGives, ReadTrackGives};

use crate::sheets::written_in_numbers;
use charting::chart;
use sheet::record::cell_numbers;
use track::refusal::number_of;
use wkt::reading::read_track;

// Writes a line for each live cell to the first bytes: 0, or the refusal's number.
pub fn bradawlet_tracks(table: &[i32], bytes: &mut [u8], total: &mut i32) -> i32
    ensures { TracksGives table.now bytes.old result total.new bytes.new }
{
    let written = chart(table, bytes);
    written_in_numbers(written, total)
}

// Gives the cell of a line, with the identifier, as a sheet record's six numbers: 0, or the refusal's number and zeros.
pub fn bradawlet_read_track(id: i32, line: &[u8], numbers: &mut [i32; 6]) -> i32
    ensures { ReadTrackGives id line.now result numbers.new }
{
    let read = read_track(id, line);
    *numbers = cell_numbers(read.unwrap_or_default());
    number_of(read)
}
