// The calls on tracks as lines of text: those of a table written, one read.
ghost use Rattle.calls.specs.TrackCalls.{TracksGives, ReadTrackGives};

// Writes a line for each live cell to the first bytes: 0, or the refusal's number.
#[unsafe(no_mangle)]
pub extern "C" fn bradawlet_tracks(table: &[i32], bytes: &mut [u8], total: &mut i32) -> i32
    ensures { TracksGives table.now bytes.old result total.new bytes.new }
{
    calls::tracks::bradawlet_tracks(table, bytes, total)
}

// Gives the cell of a line, with the identifier, as a sheet record's six numbers: 0, or the refusal's number and zeros.
#[unsafe(no_mangle)]
pub extern "C" fn bradawlet_read_track(id: i32, line: &[u8], numbers: &mut [i32; 6]) -> i32
    ensures { ReadTrackGives id line.now result numbers.new }
{
    calls::tracks::bradawlet_read_track(id, line, numbers)
}
