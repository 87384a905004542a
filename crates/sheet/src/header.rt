// The header of a sheet: count, offset of the cells, clock and total length, read and written by name here and nowhere else.
ghost use Rattle.std.specs.Prelude.{◌≡◌, ◌^◌, ◌<◌, ◌≤◌, pos, length};
ghost use Rattle.whole.specs.Tells.{Tells};
ghost use Rattle.words.specs.Parts.{put};
ghost use Rattle.sheet.specs.Sheet.{header_bytes, total_for, header_of, count_word, offset_word, clock_of, total_word, record_count};
ghost use Rattle.sheet.specs.WellFormed.{IsCountTo, HeaderSound};

use crate::bytes::{put_words, read_word};
use crate::record::{HEADER_BYTES, total_for};
use track::minute::is_minute;
use words::{place, word_of};

fn count_word(bytes: &[u8]) -> i32
    ensures { result ≡ count_word bytes.now }
{
    read_word(bytes, 0)
}

fn offset_word(bytes: &[u8]) -> i32
    ensures { result ≡ offset_word bytes.now }
{
    read_word(bytes, 4)
}

pub fn clock_of(bytes: &[u8]) -> i32
    ensures { result ≡ clock_of bytes.now }
{
    read_word(bytes, 8)
}

fn total_word(bytes: &[u8]) -> i32
    ensures { result ≡ total_word bytes.now }
{
    read_word(bytes, 12)
}

// How many cells the header says there are.
pub fn count_of(bytes: &[u8]) -> usize
    ensures { (result ≡ record_count bytes.now) × (result < 2 ^ 31) }
{
    place(count_word(bytes))
}

// Writes the header of a sheet of n cells.
pub fn put_header(bytes: &mut [u8], clock: i32, n: usize)
    requires { (total_for n < 2 ^ 31) × (header_bytes ≤ length bytes.old) }
    ensures { bytes.new ≡ put bytes.old 0 header_bytes (header_of clock n) }
{
    let numbers = [
        word_of(n),
        word_of(HEADER_BYTES),
        clock,
        word_of(total_for(n)),
    ];
    put_words(bytes, 0, &numbers);
}

// Whether a word is the number n.
fn is_number(z: i32, n: usize) -> bool
    ensures { Tells result (z ≡ pos n) }
{
    usize::try_from(z) == Ok(n)
}

// Whether a word is a count up to the limit.
fn is_count_to(z: i32, limit: usize) -> bool
    ensures { Tells result (IsCountTo limit z) }
{
    usize::try_from(z).is_ok_and(|n| n <= limit)
}

// Whether the header is that of a sheet of this length with at most `limit` cells.
pub fn sheet_header_sound(bytes: &[u8], limit: usize) -> bool
    ensures { Tells result (HeaderSound limit bytes.now) }
{
    let whole_header = HEADER_BYTES <= bytes.len();
    let total = total_word(bytes);
    whole_header
        & is_count_to(count_word(bytes), limit)
        & is_number(offset_word(bytes), HEADER_BYTES)
        & is_minute(clock_of(bytes))
        & is_number(total, total_for(count_of(bytes)))
        & is_number(total, bytes.len())
}
