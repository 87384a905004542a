// The desk's answers, spelt into a lent buffer, each with its line feed. A buffer that might be too short is refused: nothing is
// written, and the answer is 0; else the answer is how many bytes were written.
#![tactic(auto)]

ghost use Rattle.std.specs.Prelude.{◌≡◌, ◌+◌, ◌*◌, ◌^◌, ◌≤◌, ◌<◌, length, take};
ghost use Rattle.decimal.specs.Inner.PutBytes.{Put, TheseBytes};
ghost use Rattle.desk_answers.specs.AnswerLines.{ok_line, bad_line, Spaced, NoLine, HitsLine, Spelt};

use decimal::spelling::{put_decimal, put_text};

// Room for a word of the answers, ten digits and a line feed; and for a space and ten digits.
const NO_ROOM: usize = 14;

pub const HITS_ROOM: usize = 16;

pub const FIELD_ROOM: usize = 11;

fn put_list(out: &mut [u8], at: usize, list: &[i32]) -> usize
    requires { at + 11 * length list.now ≤ length out.old }
    ensures { (Put (Spaced list.now) out.old at out.new result) × (result ≤ at + 11 * length list.now) }
{
    let mut end = at;
    for id in list {
        out[end] = b' ';
        end = put_decimal(out, end + 1, words::place(*id));
    }
    end
}

// Each line's function tests for room itself: one place for the test would take the writing as a closure, with clauses for it.
fn spell_word(out: &mut [u8], word: &[u8]) -> usize
    ensures { Spelt (length word.now) (TheseBytes word.now) out.old out.new result }
{
    if out.len() < word.len() {
        return 0;
    }
    put_text(out, 0, word)
}

// Each word has its function: with `spell_word` alone, whoever answers would write the bytes of the word.
pub fn spell_ok(out: &mut [u8]) -> usize
    ensures { Spelt 3 (λ line. line ≡ ok_line) out.old out.new result }
{
    spell_word(out, b"ok\n")
}

pub fn spell_bad(out: &mut [u8]) -> usize
    ensures { Spelt 4 (λ line. line ≡ bad_line) out.old out.new result }
{
    spell_word(out, b"bad\n")
}

// A refusal's number, as a line has it: a report's refusal and a query's are of two types, and each gives one.
pub fn spell_no(out: &mut [u8], number: i32) -> usize
    ensures { Spelt 14 (NoLine number) out.old out.new result }
{
    if out.len() < NO_ROOM {
        return 0;
    }
    let at = put_text(out, 0, b"no ");
    let end = put_decimal(out, at, words::place(number));
    put_text(out, end, b"\n")
}

// How many identifiers there are, and each of them.
pub fn spell_hits(out: &mut [u8], hits: &[i32]) -> usize
    requires { length hits.now < 2 ^ 31 }
    ensures { Spelt (16 + 11 * length hits.now) (HitsLine hits.now) out.old out.new result }
{
    if out.len() < HITS_ROOM + FIELD_ROOM * hits.len() {
        return 0;
    }
    let at = put_text(out, 0, b"hits ");
    let fields = put_decimal(out, at, hits.len());
    let end = put_list(out, fields, hits);
    put_text(out, end, b"\n")
}
