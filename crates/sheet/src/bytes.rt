// Words in a slice of bytes: little-endian, two's complement.
ghost use Rattle.std.specs.Prelude.{◌≡◌, ◌+◌, ◌*◌, ◌≤◌, length};
ghost use Rattle.words.specs.Parts.{put};
ghost use Rattle.sheet.specs.Bytes.{byte_at, word_in_bytes, bytes_of, word_bytes};
ghost use Rattle.sheet.specs.Sheet.{bytes_of_all};

const WORD: usize = 4;

// The byte at a place, 0 past the end.
fn byte(bytes: &[u8], at: usize) -> u8
    ensures { result ≡ byte_at bytes.now at }
{
    bytes.get(at).copied().unwrap_or(0)
}

// The word whose bytes stand from a place on; those past the end are 0.
pub fn read_word(bytes: &[u8], at: usize) -> i32
    ensures { result ≡ word_in_bytes bytes.now at }
{
    let rest = bytes.get(at..).unwrap_or(&[]);
    match rest {
        &[a, b, c, d, ..] => i32::from_le_bytes([a, b, c, d]),
        _ => i32::from_le_bytes([byte(rest, 0), byte(rest, 1), byte(rest, 2), 0]),
    }
}

// Writes a word's bytes from a place on.
pub fn put_word(bytes: &mut [u8], at: usize, z: i32)
    requires { at + word_bytes ≤ length bytes.old }
    ensures { bytes.new ≡ put bytes.old at word_bytes (bytes_of z) }
{
    bytes[at..at + WORD].copy_from_slice(&z.to_le_bytes());
}

// Writes the bytes of words one after the other from a place on.
pub fn put_words(bytes: &mut [u8], at: usize, words: &[i32])
    requires { at + word_bytes * length words.now ≤ length bytes.old }
    ensures { bytes.new ≡ put bytes.old at (word_bytes * length words.now) (bytes_of_all words.now) }
{
    for (j, z) in words.iter().enumerate() {
        put_word(bytes, at + WORD * j, *z);
    }
}
