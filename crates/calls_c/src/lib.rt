// What C and Rust link: every call of `calls`, with its clauses, in the forms that the C interface has.
#![tactic(auto)]

ghost use Rattle.track.specs.Answer.{moving_answers};
ghost use Rattle.track.specs.Query.{query_from, window_from};
ghost use Rattle.track.specs.Refusals.{Gives};
ghost use Rattle.track.specs.Report.{report_from};
ghost use Rattle.calls.specs.TableCalls.{FreshGives, WindowGives, MovingGives};

mod changes;
mod sheets;
mod tracks;

// Whether the cell of a report meets a moving query: 1 for yes, 0 for no, else the refusal's number.
#[unsafe(no_mangle)]
pub extern "C" fn bradawlet_meets_moving(
    id: i32,
    x: i32,
    y: i32,
    vx: i32,
    vy: i32,
    minute: i32,
    expiry: i32,
    start: i32,
    end: i32,
    xlow: i32,
    xhigh: i32,
    ylow: i32,
    yhigh: i32,
    xlow2: i32,
    xhigh2: i32,
    ylow2: i32,
    yhigh2: i32,
) -> i32
    ensures { Gives (moving_answers (report_from id x y vx vy minute expiry) (query_from start end xlow xhigh ylow yhigh xlow2 xhigh2 ylow2 yhigh2)) result }
{
    calls::bradawlet_meets_moving(
        id, x, y, vx, vy, minute, expiry, start, end, xlow, xhigh, ylow, yhigh, xlow2, xhigh2,
        ylow2, yhigh2,
    )
}

// Makes a fresh table for so many cells: 0, or the refusal's number.
#[unsafe(no_mangle)]
pub extern "C" fn bradawlet_fresh(table: &mut [i32], cells: i32) -> i32
    ensures { FreshGives cells table.old result table.new }
{
    calls::bradawlet_fresh(table, cells)
}

// Lists the cells that meet a window: 0, or the refusal's number.
#[unsafe(no_mangle)]
pub extern "C" fn bradawlet_window(
    table: &[i32],
    list: &mut [i32],
    start: i32,
    end: i32,
    xlow: i32,
    xhigh: i32,
    ylow: i32,
    yhigh: i32,
    hits: &mut i32,
    opened: &mut i32,
) -> i32
    ensures { WindowGives table.now (window_from start end xlow xhigh ylow yhigh) list.old result hits.new opened.new list.new }
{
    calls::bradawlet_window(
        table, list, start, end, xlow, xhigh, ylow, yhigh, hits, opened,
    )
}

// Lists the cells that meet a moving query: 0, or the refusal's number.
#[unsafe(no_mangle)]
pub extern "C" fn bradawlet_moving(
    table: &[i32],
    list: &mut [i32],
    start: i32,
    end: i32,
    xlow: i32,
    xhigh: i32,
    ylow: i32,
    yhigh: i32,
    xlow2: i32,
    xhigh2: i32,
    ylow2: i32,
    yhigh2: i32,
    hits: &mut i32,
    opened: &mut i32,
) -> i32
    ensures { MovingGives table.now (query_from start end xlow xhigh ylow yhigh xlow2 xhigh2 ylow2 yhigh2) list.old result hits.new opened.new list.new }
{
    calls::bradawlet_moving(
        table, list, start, end, xlow, xhigh, ylow, yhigh, xlow2, xhigh2, ylow2, yhigh2, hits,
        opened,
    )
}
