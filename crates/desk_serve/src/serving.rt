// Bytes of the input, taken in one by one; each line is answered at its line feed.
ghost use Rattle.std.specs.Prelude.{◌≡◌, ◌+◌, ◌≤◌, length};
ghost use Rattle.desk_serve.specs.Answered.{longest_line, desk_cells, longest_answer};
ghost use Rattle.desk_serve.specs.Served.{CanServe, Serves, Ends};
ghost use Rattle.desk_serve.specs.Inner.Serving.{TakesByte};

use crate::{DESK_CELLS, answer_held};
use desk_answers::{FIELD_ROOM, HITS_ROOM};
use desk_lines::feed::keep_byte;

const LINE_FEED: u8 = b'\n';

const LONGEST_ANSWER: usize = HITS_ROOM + FIELD_ROOM * DESK_CELLS;

// How many bytes of the line are held, and how many of the answers are written.
#[derive(Clone, Copy)]
pub struct Place {
    pub held: usize,
    pub written: usize,
}

#[derive(Clone, Copy)]
pub struct Progress {
    pub taken: usize,
    pub place: Place,
}

fn take_byte(
    t: &mut [i32],
    list: &mut [i32],
    buffer: &mut [u8],
    out: &mut [u8],
    at: Place,
    b: u8,
) -> Place
    requires { (length list.old ≡ desk_cells) × (length buffer.old ≡ longest_line + 1) × (at.held ≤ length buffer.old) × (at.written + longest_answer ≤ length out.old) }
    ensures { TakesByte b t.old buffer.old at.held out.old at.written t.new buffer.new result.held out.new result.written }
{
    if b != LINE_FEED {
        return Place {
            held: keep_byte(buffer, at.held, b),
            ..at
        };
    }
    let n = answer_held(t, list, buffer, at.held, &mut out[at.written..]);
    Place {
        held: 0,
        written: at.written + n,
    }
}

// Takes in bytes of the piece until it ends or there might be no room for a further answer.
pub fn serve(
    t: &mut [i32],
    list: &mut [i32],
    buffer: &mut [u8],
    held: usize,
    piece: &[u8],
    out: &mut [u8],
) -> Progress
    requires { CanServe list.old buffer.old held out.old }
    ensures { Serves t.old buffer.old held piece.now out.old t.new buffer.new result.place.held out.new result.taken result.place.written }
{
    let mut place = Place { held, written: 0 };
    for (i, b) in piece.iter().enumerate() {
        if out.len() - place.written < LONGEST_ANSWER {
            return Progress { taken: i, place };
        }
        place = take_byte(t, list, buffer, out, place, *b);
    }
    Progress {
        taken: piece.len(),
        place,
    }
}

// What is held when the input ends is a line, if there is any.
pub fn end(t: &mut [i32], list: &mut [i32], buffer: &[u8], held: usize, out: &mut [u8]) -> usize
    requires { CanServe list.old buffer.now held out.old }
    ensures { Ends t.old buffer.now held out.old t.new out.new result }
{
    if held == 0 {
        return 0;
    }
    answer_held(t, list, buffer, held, out)
}
