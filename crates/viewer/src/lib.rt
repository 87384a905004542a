// What the C viewer asks, on plain numbers and on bytes.
#![tactic(auto)]

ghost use Rattle.track.specs.Answer.{window_answers};
ghost use Rattle.track.specs.Query.{window_from};
ghost use Rattle.track.specs.Refusals.{Gives};
ghost use Rattle.track.specs.Report.{report_from};
ghost use Rattle.viewer.specs.SheetAnswer.{sheet_answers};

use sheet::judge::judge;
use track::cell::Cell;
use track::meeting::answer;
use track::minute::Minute;
use track::queries::{Query, window_from};
use track::range::MOST_CELLS;
use track::report::report_from;

// Whether the cell of a report meets a window: 1 for yes, 0 for no, else the refusal's number. The report's
// own minute is the clock at which the window is asked; the report is made at the first minute, so none is early.
#[unsafe(no_mangle)]
pub extern "C" fn bradawlet_meets(
    id: i32,
    x: i32,
    y: i32,
    vx: i32,
    vy: i32,
    minute: i32,
    expiry: i32,
    start: i32,
    end: i32,
    xlow: i32,
    xhigh: i32,
    ylow: i32,
    yhigh: i32,
) -> i32
    ensures { Gives (window_answers (report_from id x y vx vy minute expiry) (window_from start end xlow xhigh ylow yhigh)) result }
{
    let first = Minute::FIRST;
    let report = report_from(id, x, y, vx, vy, minute, expiry);
    let window = window_from(start, end, xlow, xhigh, ylow, yhigh);
    let reported = Cell::reported(first.at, report);
    let asked = Query::window(minute, window);
    answer(reported, asked)
}

// Whether bytes are a well-formed sheet: 1 for yes, else the refusal's number.
#[unsafe(no_mangle)]
pub extern "C" fn bradawlet_sheet(bytes: &[u8]) -> i32
    ensures { Gives (sheet_answers bytes.now) result }
{
    match judge(bytes, MOST_CELLS) {
        Ok(()) => 1,
        Err(why) => why.number(),
    }
}
