// One line of the desk, read: which of the four forms it is, with what its numbers say, or none of them.
#![tactic(auto)]

ghost use Rattle.std.specs.Prelude.{◌≡◌};
ghost use Rattle.desk_lines.specs.Forms.{ReadsLine};
ghost use Rattle.desk_lines.specs.Inner.Numbered.{report_of, drop_of, window_of, moving_of};

use crate::field::form;
use track::queries::{Query, query_from, window_from};
use track::report::Report;

pub mod feed;
pub mod field;

// A drop as it comes.
#[derive(Clone, Copy)]
pub struct DropNumbers {
    pub id: i32,
    pub minute: i32,
}

#[derive(Clone, Copy)]
pub enum Line {
    Cell(Report),
    Drop(DropNumbers),
    When(Query),
    Move(Query),
}

impl From<[i32; 2]> for DropNumbers {
    ghost from_gives = { λ n d. d ≡ drop_of n };

    fn from(n: [i32; 2]) -> DropNumbers {
        let [id, minute] = n;
        DropNumbers { id, minute }
    }
}

// No `From` for these: an impl of another crate's trait must name a type of this crate, and Report and Query are of track.
fn report_of(n: [i32; 7]) -> Report
    ensures { result ≡ report_of n }
{
    let [id, x, y, vx, vy, minute, expiry] = n;
    Report {
        id,
        x,
        y,
        vx,
        vy,
        minute,
        expiry,
    }
}

fn window_of(n: [i32; 6]) -> Query
    ensures { result ≡ window_of n }
{
    let [start, end, xlow, xhigh, ylow, yhigh] = n;
    window_from(start, end, xlow, xhigh, ylow, yhigh)
}

fn moving_of(n: [i32; 10]) -> Query
    ensures { result ≡ moving_of n }
{
    let [
        start,
        end,
        xlow,
        xhigh,
        ylow,
        yhigh,
        xlow2,
        xhigh2,
        ylow2,
        yhigh2,
    ] = n;
    query_from(
        start, end, xlow, xhigh, ylow, yhigh, xlow2, xhigh2, ylow2, yhigh2,
    )
}

// A line without its line feed; `None` where it has none of the forms.
pub fn read(line: &[u8]) -> Option<Line>
    ensures { ReadsLine line.now result }
{
    if let Some(n) = form(line, b"cell") {
        return Some(Line::Cell(report_of(n)));
    }
    if let Some(n) = form(line, b"drop") {
        return Some(Line::Drop(DropNumbers::from(n)));
    }
    if let Some(n) = form(line, b"when") {
        return Some(Line::When(window_of(n)));
    }
    if let Some(n) = form(line, b"move") {
        return Some(Line::Move(moving_of(n)));
    }
    None
}
