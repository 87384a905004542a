// A run of the leafing. Cells are reported out of order, one of them once more; one is dropped, and two have expired. The cells that
// are left are listed by leafing through the table, and printed.
#![tactic(auto)]

use leafing::through::{Listed, RECORD_NUMBERS, leaf_through};
use std::io;
use table::fresh::fresh;
use track::refusal::number_of;
use track::report::report_from;
use tree::change::{drop, report};

// Each row is a report: identifier, x, y, velocities, minute, expiry. Ten cells are more than a node holds. At minute 12 cell 6 is
// replaced; cell 2 is past its expiry, and cell 5 is at it, and so lives no more.
const REPORTS: [[i32; 7]; 11] = [
    [7, 100, 200, 5, -3, 10, 40],
    [3, -40, 0, 0, 0, 10, 30],
    [10, 0, 0, 3, 3, 10, 35],
    [6, 500, -500, -10, 10, 10, 20],
    [2, 1, 1, 0, 0, 10, 11],
    [9, 70, 80, 1, 1, 10, 60],
    [5, 900, 20, -40, 0, 10, 12],
    [1, -100000, 100000, -512, 512, 10, 1440],
    [8, 15, -15, 0, 2, 10, 44],
    [4, 260, 250, 6, 5, 10, 33],
    [6, 490, -470, -9, 11, 12, 50],
];

fn report_all(t: &mut [i32]) {
    for [id, x, y, vx, vy, minute, expiry] in REPORTS {
        let _ = report(t, report_from(id, x, y, vx, vy, minute, expiry));
    }
}

// The number that was given, and how many cells.
fn print_answer(rt: &HostRuntime, listed: Listed) -> io::Result<()> {
    println!(rt;
        "number {}, cells {}",
        number_of(listed.outcome),
        listed.cells
    )
}

// A line for each record: identifier, kept x, x velocity, kept y, y velocity, expiry.
fn print_records(rt: &HostRuntime, list: &[i32]) -> io::Result<()> {
    for [id, x, vx, y, vy, expiry] in list.as_chunks::<RECORD_NUMBERS>().0 {
        println!(rt; "{id} {x} {vx} {y} {vy} {expiry}")?;
    }
    Ok(())
}

// Seven cells are left: a list of 42 places holds them, one of 41 is refused, and words that are no table are refused.
fn main(rt: HostRuntime) -> io::Result<()> {
    let mut table = [0i32; 880];
    let mut list = [0i32; 42];
    let mut short = [0i32; 41];
    let _ = fresh(&mut table, 16);
    report_all(&mut table);
    let _ = drop(&mut table, 9, 12);
    print_answer(&rt, leaf_through(&table, &mut list))?;
    print_records(&rt, &list)?;
    print_answer(&rt, leaf_through(&table, &mut short))?;
    print_answer(&rt, leaf_through(&short, &mut list))
}
