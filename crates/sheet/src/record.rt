// The records of a sheet, read and written, and where they stand.
ghost use Rattle.std.specs.Prelude.{◌≡◌, ◌+◌, ◌^◌, ◌<◌, ◌≤◌, length};
ghost use Rattle.words.specs.Parts.{put};
ghost use Rattle.sheet.specs.Sheet.{record_bytes, record_start, total_for, cell_numbers, record_of, cell_at};

use crate::bytes::{put_words, read_word};
use track::cell::Cell;
use track::minute::Minute;

// The sizes of specs/Sheet.antt, for the code.
pub const HEADER_BYTES: usize = 16;

const RECORD_BYTES: usize = 24;

// How long a sheet of n cells is, which is also where record n starts.
pub fn total_for(n: usize) -> usize
    requires { n < 2 ^ 59 }
    ensures { result ≡ total_for n }
{
    HEADER_BYTES + RECORD_BYTES * n
}

// The cell of record k. A record past the end is told apart, since its place might wrap.
pub fn cell_at(bytes: &[u8], k: usize) -> Cell
    ensures { result ≡ cell_at bytes.now k }
{
    if bytes.len() / RECORD_BYTES < k {
        return Cell::default();
    }
    let at = total_for(k);
    Cell {
        id: read_word(bytes, at),
        x: read_word(bytes, at + 4),
        vx: read_word(bytes, at + 8),
        y: read_word(bytes, at + 12),
        vy: read_word(bytes, at + 16),
        expiry: Minute {
            at: read_word(bytes, at + 20),
        },
    }
}

// The numbers of a cell's record.
pub fn cell_numbers(c: Cell) -> [i32; 6]
    ensures { result ≡ cell_numbers c }
{
    [c.id, c.x, c.vx, c.y, c.vy, c.expiry.at]
}

// Writes the cell's record in the place of record k.
pub fn put_record(bytes: &mut [u8], k: usize, c: Cell)
    requires { record_start k + record_bytes ≤ length bytes.old }
    ensures { bytes.new ≡ put bytes.old (record_start k) record_bytes (record_of c) }
{
    let numbers = cell_numbers(c);
    put_words(bytes, total_for(k), &numbers);
}
