ghost use Rattle.std.specs.Prelude.{◌≡◌};
ghost use Rattle.whole.specs.Tells.{Tells};
ghost use Rattle.track.specs.Numbers.{IsMinute};
ghost use Rattle.track.specs.Query.{QueryInRange};
ghost use Rattle.track.specs.Meets.{span, Meets, CellMeets, cell_bounds};
ghost use Rattle.track.specs.Life.{CellInRange};
ghost use Rattle.track.specs.Inner.Small.{BoundsInRange};
ghost use Rattle.track.specs.Refusals.{Gives};
ghost use Rattle.track.specs.Answer.{answers_to};
ghost use Rattle.track.specs.Accepted.{KeptInRange, TakenInRange};

use crate::cell::Cell;
use crate::interval::Interval;
use crate::queries::Query;
use crate::refusal::Refusal;

// The minutes over which the query's rectangle moves, and 1 where its start is its end.
fn span(q: Query) -> i64
    requires { QueryInRange q }
    ensures { result ≡ span q }
{
    let minutes = i64::from(q.end.at) - i64::from(q.start.at);
    if minutes < 1 { 1 } else { minutes }
}

// Whether what has these bounds and lives until `expiry` meets the query: y is tried at the instants at which x is inside.
pub fn meets(b: [[i32; 4]; 2], expiry: i32, q: Query) -> bool
    requires { (BoundsInRange b) × (IsMinute expiry) × (QueryInRange q) }
    ensures { Tells result (Meets b expiry q) }
{
    let start = i64::from(q.start.at);
    let whole = Interval {
        lo: start,
        lod: 1,
        hi: i64::from(q.end.at),
        hid: 1,
    };
    let minutes = span(q);
    let on_x = whole.along(q.x, b[0], start, minutes);
    if !on_x.lives(expiry) {
        return false;
    }
    let on_both = on_x.along(q.y, b[1], start, minutes);
    on_both.lives(expiry)
}

// The bounds of a cell or of an entry by value: a row for x and a row for y.
pub type Bounds = [[i32; 4]; 2];

// A cell is a point: on each axis one edge and one velocity.
pub fn cell_bounds(c: Cell) -> Bounds
    ensures { result ≡ cell_bounds c }
{
    [[c.x, c.x, c.vx, c.vx], [c.y, c.y, c.vy, c.vy]]
}

pub fn cell_meets(c: Cell, q: Query) -> bool
    requires { (CellInRange c) × (QueryInRange q) }
    ensures { Tells result (CellMeets c q) }
{
    meets(cell_bounds(c), c.expiry.at, q)
}

// What is told of a report and a query on its cell: 1 for yes, 0 for no, else the first refusal's number.
pub fn answer(reported: Result<Cell, Refusal>, asked: Result<Query, Refusal>) -> i32
    requires { (KeptInRange reported) × (TakenInRange asked) }
    ensures { Gives (answers_to reported asked) result }
{
    match (reported, asked) {
        (Ok(c), Ok(q)) => i32::from(cell_meets(c, q)),
        (Ok(_), Err(why)) => why.number(),
        (Err(why), Ok(_)) => why.number(),
        (Err(why), Err(other)) => why.first(other),
    }
}
