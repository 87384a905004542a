// Queries of a table: which cells meet a rectangle, still or moving.
#![tactic(auto)]

ghost use Rattle.track.specs.Query.{still, EndsBeforeStart, EndsByStart};
ghost use Rattle.query.specs.Queried.{Queried};

use crate::answer::{Found, NotListed};
use crate::listing::answered;
use table::header::clock;
use track::queries::Query;

pub mod answer;
pub mod listing;
pub mod opening;

// Lists the cells that are in the query's first rectangle at some instant from start to end. This and `moving` differ in how the query is
// judged: one function that takes the judging would say in its contract what any judging answers, and be no shorter.
pub fn window(t: &[i32], list: &mut [i32], q: Query) -> Result<Found, NotListed>
    ensures { Queried t.now (EndsBeforeStart q) (still q) list.old result list.new }
{
    let asked = Query::window(clock(t), q);
    answered(t, list, asked)
}

// Lists the cells that are at some instant in a rectangle that goes straight from the first, at the start, to the second, at the end.
pub fn moving(t: &[i32], list: &mut [i32], q: Query) -> Result<Found, NotListed>
    ensures { Queried t.now (EndsByStart q) q list.old result list.new }
{
    let asked = Query::moving(clock(t), q);
    answered(t, list, asked)
}
