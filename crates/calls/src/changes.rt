// The calls that change a table.
ghost use Rattle.track.specs.Report.{report_from};
ghost use Rattle.calls.specs.ChangeCalls.{ReportGives, DropGives};

use track::refusal::number_of;
use track::report::report_from;
use tree::change::{drop, report};

// Puts a cell in, in the place of a live one of the same identifier: 0, or the refusal's number.
pub fn bradawlet_report(
    table: &mut [i32],
    id: i32,
    x: i32,
    y: i32,
    vx: i32,
    vy: i32,
    minute: i32,
    expiry: i32,
) -> i32
    ensures { ReportGives table.old (report_from id x y vx vy minute expiry) result table.new }
{
    let made = report_from(id, x, y, vx, vy, minute, expiry);
    number_of(report(table, made))
}

// Takes a live cell out: 0, or the refusal's number.
pub fn bradawlet_drop(table: &mut [i32], id: i32, minute: i32) -> i32
    ensures { DropGives table.old id minute result table.new }
{
    number_of(drop(table, id, minute))
}
