// The calls that hand out what a table holds: cell by cell, or as a sheet.
ghost use Rattle.track.specs.Refusals.{Gives};
ghost use Rattle.leafing.specs.NextLive.{opening_reasons};
ghost use Rattle.calls.specs.SheetCalls.{WriteGives, ReadGives, NextGives};

// Writes the table's sheet to the first bytes: 0, or the refusal's number.
#[unsafe(no_mangle)]
pub extern "C" fn bradawlet_write(table: &[i32], bytes: &mut [u8], total: &mut i32) -> i32
    ensures { WriteGives table.now bytes.old result total.new bytes.new }
{
    calls::sheets::bradawlet_write(table, bytes, total)
}

// Replaces the table by one for so many cells that holds the sheet's: 0, or the refusal's number.
#[unsafe(no_mangle)]
pub extern "C" fn bradawlet_read(table: &mut [i32], cells: i32, bytes: &[u8]) -> i32
    ensures { ReadGives cells table.old bytes.now result table.new }
{
    calls::sheets::bradawlet_read(table, cells, bytes)
}

// Whether the table can be leafed through: 0, or the refusal's number.
#[unsafe(no_mangle)]
pub extern "C" fn bradawlet_open(table: &[i32]) -> i32
    ensures { Gives (opening_reasons table.now) result }
{
    calls::sheets::bradawlet_open(table)
}

// Gives the next live cell after an identifier, as a sheet record's six numbers: 1, or 0 and zeros where no more are left.
#[unsafe(no_mangle)]
pub extern "C" fn bradawlet_next(table: &[i32], last: i32, numbers: &mut [i32; 6]) -> i32
    ensures { NextGives table.now last result numbers.new }
{
    calls::sheets::bradawlet_next(table, last, numbers)
}
