// Leafing through a table: from its opening, step by step, until none is left.
ghost use Rattle.std.specs.Prelude.{◌≡◌, ◌+◌, ◌*◌, ◌≤◌, length};
ghost use Rattle.words.specs.Parts.{put};
ghost use Rattle.table.specs.Header.{greatest_capacity};
ghost use Rattle.sheet.specs.Sheet.{cell_numbers};
ghost use Rattle.leafing.specs.Through.{record_numbers, LeafsThrough};
ghost use Rattle.leafing.specs.Inner.LeafingList.{ListsAll};

use crate::open;
use sheet::record::cell_numbers;
use track::cell::Cell;
use track::range::MOST_CELLS;
use track::refusal::Refusal;
use words::put_run;

// How many numbers a cell has: a sheet record's six.
pub const RECORD_NUMBERS: usize = 6;

// What leafing through a table comes to, and how many cells were given, which is told of a list that is too short as well.
#[derive(Clone, Copy, Debug, PartialEq, Eq)]
pub struct Listed {
    pub outcome: Result<(), Refusal>,
    pub cells: usize,
}

// Writes the numbers of a cell behind those of the n that stand in the list.
fn list_cell(list: &mut [i32], n: usize, c: Cell)
    requires { record_numbers * (n + 1) ≤ length list.old }
    ensures { list.new ≡ put list.old (record_numbers * n) record_numbers (cell_numbers c) }
{
    let numbers = cell_numbers(c);
    put_run(list, RECORD_NUMBERS * n, &numbers);
}

// Opens a leafing and goes through it to its end. The list has room for as many cells as a table may hold.
fn list_all(t: &[i32], list: &mut [i32]) -> Listed
    requires { record_numbers * greatest_capacity ≤ length list.old }
    ensures { ListsAll t.now list.old result list.new }
{
    let l = open(t);
    let outcome = l.opened;
    let mut n = 0;
    for c in l {
        list_cell(list, n, c);
        n += 1;
    }
    Listed { outcome, cells: n }
}

// Lists the live cells by rising identifier, as a sheet record's six numbers each, if the list has room for them. Words that are no
// sound table give no cell, and what comes of them is what came of the opening.
pub fn leaf_through(t: &[i32], list: &mut [i32]) -> Listed
    ensures { LeafsThrough t.now list.old result list.new }
{
    let mut all = [0; RECORD_NUMBERS * MOST_CELLS];
    let found = list_all(t, &mut all);
    let n = RECORD_NUMBERS * found.cells;
    if list.len() < n {
        return Listed {
            outcome: Err(Refusal::ShortList),
            cells: found.cells,
        };
    }
    put_run(list, 0, &all[..n]);
    found
}
