// The calls that C and Rust link, on plain numbers and lent words; `calls_c` exports them. Each is as the C interface has it: numbers in a
// row, a refusal as a number, counts and totals through references.
#![tactic(auto)]

ghost use Rattle.track.specs.Answer.{moving_answers};
ghost use Rattle.track.specs.Query.{query_from, window_from};
ghost use Rattle.track.specs.Refusals.{Gives};
ghost use Rattle.track.specs.Report.{report_from};
ghost use Rattle.query.specs.Inner.Few.{Few};
ghost use Rattle.calls.specs.TableCalls.{FreshGives, InNumbers, WindowGives, MovingGives};

use query::answer::{Found, NotListed};
use table::fresh::fresh;
use track::cell::Cell;
use track::meeting::answer;
use track::minute::Minute;
use track::queries::{Query, query_from, window_from};
use track::refusal::number_of;
use track::report::report_from;
use words::word_of;

pub mod changes;
pub mod sheets;
pub mod tracks;

// Whether the cell of a report meets a moving query: 1 for yes, 0 for no, else the refusal's number.
pub fn bradawlet_meets_moving(
    id: i32,
    x: i32,
    y: i32,
    vx: i32,
    vy: i32,
    minute: i32,
    expiry: i32,
    start: i32,
    end: i32,
    xlow: i32,
    xhigh: i32,
    ylow: i32,
    yhigh: i32,
    xlow2: i32,
    xhigh2: i32,
    ylow2: i32,
    yhigh2: i32,
) -> i32
    ensures { Gives (moving_answers (report_from id x y vx vy minute expiry) (query_from start end xlow xhigh ylow yhigh xlow2 xhigh2 ylow2 yhigh2)) result }
{
    let first = Minute::FIRST;
    let report = report_from(id, x, y, vx, vy, minute, expiry);
    let q = query_from(
        start, end, xlow, xhigh, ylow, yhigh, xlow2, xhigh2, ylow2, yhigh2,
    );
    let reported = Cell::reported(first.at, report);
    let asked = Query::moving(minute, q);
    answer(reported, asked)
}

// Makes a fresh table for so many cells: 0, or the refusal's number.
pub fn bradawlet_fresh(table: &mut [i32], cells: i32) -> i32
    ensures { FreshGives cells table.old result table.new }
{
    number_of(fresh(table, cells))
}

// Hands an answer's counts over through references, as the C interface has them, and tells its number.
fn in_numbers(answer: Result<Found, NotListed>, hits: &mut i32, opened: &mut i32) -> i32
    requires { Few answer }
    ensures { InNumbers answer result hits.new opened.new }
{
    match answer {
        Ok(found) => {
            *hits = word_of(found.hits);
            *opened = word_of(found.opened);
            0
        }
        Err(why) => {
            *hits = word_of(why.hits());
            *opened = 0;
            why.number()
        }
    }
}

// Lists the cells that meet a window: 0, or the refusal's number.
pub fn bradawlet_window(
    table: &[i32],
    list: &mut [i32],
    start: i32,
    end: i32,
    xlow: i32,
    xhigh: i32,
    ylow: i32,
    yhigh: i32,
    hits: &mut i32,
    opened: &mut i32,
) -> i32
    ensures { WindowGives table.now (window_from start end xlow xhigh ylow yhigh) list.old result hits.new opened.new list.new }
{
    let q = window_from(start, end, xlow, xhigh, ylow, yhigh);
    let answer = query::window(table, list, q);
    in_numbers(answer, hits, opened)
}

// Lists the cells that meet a moving query: 0, or the refusal's number.
pub fn bradawlet_moving(
    table: &[i32],
    list: &mut [i32],
    start: i32,
    end: i32,
    xlow: i32,
    xhigh: i32,
    ylow: i32,
    yhigh: i32,
    xlow2: i32,
    xhigh2: i32,
    ylow2: i32,
    yhigh2: i32,
    hits: &mut i32,
    opened: &mut i32,
) -> i32
    ensures { MovingGives table.now (query_from start end xlow xhigh ylow yhigh xlow2 xhigh2 ylow2 yhigh2) list.old result hits.new opened.new list.new }
{
    let q = query_from(
        start, end, xlow, xhigh, ylow, yhigh, xlow2, xhigh2, ylow2, yhigh2,
    );
    let answer = query::moving(table, list, q);
    in_numbers(answer, hits, opened)
}
