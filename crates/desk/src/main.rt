// The desk: lines from standard input, an answer to each on standard output.
#![tactic(auto)]

ghost use Rattle.std.specs.Prelude.{◌≡◌, ◌-◌, ◌^◌, pos, length};
ghost use Rattle.table.specs.Header.{words_for};
ghost use Rattle.table.specs.Fresh.{IsFresh};
ghost use Rattle.desk_serve.specs.Answered.{desk_cells};
ghost use Rattle.desk_serve.specs.Served.{CanServe};
ghost use Rattle.desk.specs.Talked.{Talked, Finished, Turned, Ran};
ghost use Rattle.desk.specs.Inner.Counts.{Moved};

use desk_serve::serving::{end, serve};
use desk_serve::{DESK_CELLS, LONGEST_LINE};
use std::io::Read;
use table::fresh::fresh;
use words::{HEADER, NODE_WORDS};

// The words of a table for the desk's cells.
const TABLE_WORDS: usize = HEADER + NODE_WORDS * (DESK_CELLS / 2 + 1);

const CAPACITY: i32 = DESK_CELLS as i32;

// The bytes of a piece of input, and of the answers that are written at once.
const PIECE: usize = 65536;

// Whether standard output took the answers. Where it did not, a line on standard error says so.
fn say(rt: &HostRuntime, answers: &[u8]) -> bool {
    if rt.write_all(answers).is_ok() {
        return true;
    }
    let _ = eprintln!(rt; "bradawlet: standard output could not be written");
    false
}

// Answers every line that ends in the piece, and tells whether standard output took every answer. A `while`, since each turn goes on by as
// many bytes as were taken. What is held of a line from piece
// to piece is counted here alone.
fn talk(
    rt: &HostRuntime,
    t: &mut [i32],
    list: &mut [i32],
    line: &mut [u8],
    held: &mut usize,
    piece: &[u8],
    out: &mut [u8],
) -> bool
    requires { CanServe list.old line.old held.old out.old }
    ensures { Talked t.old line.old held.old piece.now t.new line.new held.new result }
{
    let mut from = 0;
    while from < piece.len() {
        let done = serve(t, list, line, *held, &piece[from..], out);
        *held = done.place.held;
        from += done.taken;
        if !say(rt, &out[..done.place.written]) {
            return false;
        }
    }
    true
}

// Answers what follows the last line feed.
fn finish(
    rt: &HostRuntime,
    t: &mut [i32],
    list: &mut [i32],
    line: &[u8],
    held: usize,
    out: &mut [u8],
)
    requires { CanServe list.old line.now held out.old }
    ensures { Finished t.old line.now held t.new }
{
    let written = end(t, list, line, held, out);
    say(rt, &out[..written]);
}

// How many bytes a read puts at the start of the piece, 0 at the end of the input; `None` where it fails.
fn read_piece(rt: &HostRuntime, piece: &mut [u8]) -> Option<usize>
    ensures { Moved (length piece.old) result }
{
    rt.stdin().read(piece).ok()
}

// What a read came to: `got` is its answer, and the piece has the bytes that came in. Tells whether to go on reading. A read that fails
// is no end of the input: what is held then is no last line.
fn turn(
    rt: &HostRuntime,
    t: &mut [i32],
    list: &mut [i32],
    line: &mut [u8],
    held: &mut usize,
    got: Option<usize>,
    piece: &[u8],
    out: &mut [u8],
) -> bool
    requires { CanServe list.old line.old held.old out.old }
    ensures { Turned got t.old line.old held.old piece.now t.new line.new held.new result }
{
    let Some(n) = got else {
        let _ = eprintln!(rt; "bradawlet: standard input could not be read");
        return false;
    };
    let came = n.min(piece.len());
    if came == 0 {
        finish(rt, t, list, line, *held, out);
        return false;
    }
    talk(rt, t, list, line, held, &piece[..came], out)
}

// A proved loop has to end, and nothing says that the input does: so the turns are counted, up to a number that no run comes to. A
// function's contract fixes it, since no promise of `run` does, and the edit `stops_after_65535_reads` is refused by that.
fn most_turns() -> u64
    ensures { result ≡ 2 ^ 64 - 1 }
{
    u64::MAX
}

// Reads piece after piece until the input ends or a file fails. At the start nothing is held of a line.
fn run(
    rt: &HostRuntime,
    t: &mut [i32],
    list: &mut [i32],
    line: &mut [u8],
    held: &mut usize,
    piece: &mut [u8],
    out: &mut [u8],
)
    requires { (CanServe list.old line.old held.old out.old) × (held.old ≡ 0) }
    ensures { Ran t.old line.old held.old t.new line.new held.new }
{
    for _ in 0..most_turns() {
        let got = read_piece(rt, piece);
        if !turn(rt, t, list, line, held, got, piece, out) {
            return;
        }
    }
}

// A fresh table for the desk's cells.
fn begin(t: &mut [i32])
    requires { length t.old ≡ words_for desk_cells }
    ensures { IsFresh (pos desk_cells) t.old t.new }
{
    fresh(t, CAPACITY).unwrap();
}

fn main(rt: HostRuntime) {
    let mut table = [0i32; TABLE_WORDS];
    let mut list = [0i32; DESK_CELLS];
    let mut line = [0u8; LONGEST_LINE + 1];
    let mut held = 0;
    let mut piece = [0u8; PIECE];
    let mut out = [0u8; PIECE];
    begin(&mut table);
    run(
        &rt, &mut table, &mut list, &mut line, &mut held, &mut piece, &mut out,
    );
}
