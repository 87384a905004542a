// Leafing through the live cells of a table, by rising identifier.
#![tactic(auto)]

ghost use Rattle.track.specs.Refusals.{Gives};
ghost use Rattle.leafing.specs.NextLive.{Steps, opening_reasons};
ghost use Rattle.leafing.specs.Leafing.{Opens, Moves};
ghost use Rattle.leafing.specs.Inner.CellsLeft.{cells_left};

use crate::search::{last_after, next_live, opening};
use track::cell::Cell;
use track::refusal::{Refusal, number_of};

pub mod live;
pub mod search;
pub mod through;

// Holds on to a lent table from its opening, with the identifier of the last cell given, and with what came of the opening: it is refused where the table is not sound.
#[derive(Drop)]
pub struct Leafing<'a> {
    pub table: &'a [i32],
    pub last: i32,
    pub opened: Result<(), Refusal>,
}

pub fn open<'a>(t: &'a [i32]) -> Leafing<'a>
    ensures { Opens t.entry result }
{
    Leafing {
        table: t,
        last: 0,
        opened: opening(t),
    }
}

// A step gives the next live cell, or none; the leafing goes on from it.
impl<'a> Iterator for Leafing<'a> {
    type Item = Cell;

    ghost next_gives = { Moves };

    ghost remaining = { λ l. cells_left l.table.now l.last };

    fn next(&mut self) -> Option<Cell> {
        let r = next_live(self.table, self.last);
        self.last = last_after(r, self.last);
        r
    }
}

// The opening for callers with plain numbers: its number, 0 or the refusal's.
pub fn opening_number(t: &[i32]) -> i32
    ensures { Gives (opening_reasons t.now) result }
{
    number_of(open(t).opened)
}

// A step for callers with plain numbers: a leafing at the identifier, moved on once.
pub fn step_from(t: &[i32], last: i32) -> Option<Cell>
    ensures { Steps t.now last result }
{
    let mut l = Leafing {
        table: t,
        last,
        opened: Ok(()),
    };
    l.next()
}
