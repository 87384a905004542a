// The calls that hand out what a table holds: cell by cell, or as a sheet.
ghost use Rattle.track.specs.Refusals.{Gives};
ghost use Rattle.leafing.specs.NextLive.{opening_reasons};
ghost use Rattle.calls.specs.SheetCalls.{TotalFits, WrittenInNumbers, WriteGives, ReadGives, NextGives};

use leafing::{opening_number, step_from};
use sheet::record::cell_numbers;
use sheet_read::read_sheet;
use sheet_write::write_sheet;
use track::refusal::{Refusal, number_of};
use words::word_of;

// Hands an answer's total over through a reference, as the C interface has it, and tells its number.
pub fn written_in_numbers(written: Result<usize, Refusal>, total: &mut i32) -> i32
    requires { TotalFits written }
    ensures { WrittenInNumbers written result total.new }
{
    *total = word_of(written.unwrap_or(0));
    number_of(written)
}

// Writes the table's sheet to the first bytes: 0, or the refusal's number.
pub fn bradawlet_write(table: &[i32], bytes: &mut [u8], total: &mut i32) -> i32
    ensures { WriteGives table.now bytes.old result total.new bytes.new }
{
    let written = write_sheet(table, bytes);
    written_in_numbers(written, total)
}

// Replaces the table by one for so many cells that holds the sheet's: 0, or the refusal's number.
pub fn bradawlet_read(table: &mut [i32], cells: i32, bytes: &[u8]) -> i32
    ensures { ReadGives cells table.old bytes.now result table.new }
{
    number_of(read_sheet(table, cells, bytes))
}

// Whether the table can be leafed through: 0, or the refusal's number.
pub fn bradawlet_open(table: &[i32]) -> i32
    ensures { Gives (opening_reasons table.now) result }
{
    opening_number(table)
}

// Gives the next live cell after an identifier, as a sheet record's six numbers: 1, or 0 and zeros where no more are left.
pub fn bradawlet_next(table: &[i32], last: i32, numbers: &mut [i32; 6]) -> i32
    ensures { NextGives table.now last result numbers.new }
{
    let next = step_from(table, last);
    *numbers = cell_numbers(next.unwrap_or_default());
    i32::from(next.is_some())
}
