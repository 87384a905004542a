// One line of the desk, answered in the bytes of a lent buffer.
#![tactic(auto)]

ghost use Rattle.std.specs.Prelude.{◌≡◌, ◌≤◌, length};
ghost use Rattle.desk_answers.specs.AnswerLines.{LineWritten};
ghost use Rattle.desk_serve.specs.Answered.{longest_line, desk_cells, longest_answer, Answered};
ghost use Rattle.desk_serve.specs.Served.{CanServe};
ghost use Rattle.desk_serve.specs.Inner.Serving.{AnswersHeld};

use crate::asking::{answer_move, answer_when};
use crate::stepping::{answer_cell, answer_drop};
use desk_answers::spell_bad;
use desk_lines::{Line, read};

pub mod asking;
pub mod serving;
pub mod stepping;

// The cells that the desk's table has room for, and the places of its list.
pub const DESK_CELLS: usize = 256;

// The bytes of the longest line, without its line feed.
pub const LONGEST_LINE: usize = 128;

// A line without its line feed.
fn answer_line(t: &mut [i32], list: &mut [i32], line: &[u8], out: &mut [u8]) -> usize
    requires { (length list.old ≡ desk_cells) × (length line.now ≤ longest_line) × (longest_answer ≤ length out.old) }
    ensures { LineWritten (Answered t.old line.now t.new) out.old out.new result }
{
    match read(line) {
        Some(Line::Cell(r)) => answer_cell(t, r, out),
        Some(Line::Drop(d)) => answer_drop(t, d, out),
        Some(Line::When(q)) => answer_when(t, list, q, out),
        Some(Line::Move(q)) => answer_move(t, list, q, out),
        None => spell_bad(out),
    }
}

// A line of which the buffer holds as many bytes as it has room for, one more than the longest line has.
pub fn answer_held(
    t: &mut [i32],
    list: &mut [i32],
    buffer: &[u8],
    held: usize,
    out: &mut [u8],
) -> usize
    requires { CanServe list.old buffer.now held out.old }
    ensures { AnswersHeld buffer.now held t.old t.new out.old out.new result }
{
    if LONGEST_LINE < held {
        return spell_bad(out);
    }
    answer_line(t, list, &buffer[..held], out)
}
