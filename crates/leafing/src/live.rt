// The live cells of a table that is known to be sound, one by one.
ghost use Rattle.std.specs.Prelude.{◌≡◌, pos};
ghost use Rattle.table.specs.Sound.{Sound};
ghost use Rattle.leafing.specs.Inner.CellsLeft.{cells_left};
ghost use Rattle.leafing.specs.Inner.LiveStep.{LiveStep};

use crate::search::{last_after, next_of_sound};
use track::cell::Cell;

// The live cells by rising identifier, from the last one given on. A step asks that the table is sound, and does not test it. That is
// `can_next` and no ghost field, which may hold only what has one proof: an empty root is both free and reached.
#[derive(Drop)]
pub struct LiveCells<'a> {
    pub table: &'a [i32],
    pub last: i32,
}

impl<'a> LiveCells<'a> {
    pub fn of(table: &'a [i32]) -> LiveCells<'a>
        ensures same_table { result.table ≡ table.entry }
        ensures from_start { result.last ≡ pos 0 }
    {
        LiveCells { table, last: 0 }
    }
}

impl<'a> Iterator for LiveCells<'a> {
    type Item = Cell;

    ghost can_next = { λ l. Sound l.table.now };

    ghost next_gives = { LiveStep };

    ghost remaining = { λ l. cells_left l.table.now l.last };

    fn next(&mut self) -> Option<Cell> {
        let r = next_of_sound(self.table, self.last);
        self.last = last_after(r, self.last);
        r
    }
}
