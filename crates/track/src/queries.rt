ghost use Rattle.std.specs.Prelude.{◌≡◌, T};
ghost use Rattle.whole.specs.Tells.{Tells};
ghost use Rattle.track.specs.Query.{query_from, window_from, still_edges, still, EdgesInRange, QueryInRange, Crossed, EndsBeforeStart, EndsByStart, Asks};

use crate::minute::{Minute, is_minute};
use crate::range::is_position;
use crate::refusal::Refusal;

// A query's edges on one axis: low and high at its start, low2 and high2 at its end.
#[derive(Clone, Copy, Debug, PartialEq, Eq)]
pub struct Edges {
    pub low: i32,
    pub high: i32,
    pub low2: i32,
    pub high2: i32,
}

// A rectangle that goes straight from the first, at the start, to the second, at the end.
#[derive(Clone, Copy, Debug, PartialEq, Eq)]
pub struct Query {
    pub start: Minute,
    pub end: Minute,
    pub x: Edges,
    pub y: Edges,
}

// The query of plain numbers, as they come over the edge.
pub fn query_from(
    start: i32,
    end: i32,
    xlow: i32,
    xhigh: i32,
    ylow: i32,
    yhigh: i32,
    xlow2: i32,
    xhigh2: i32,
    ylow2: i32,
    yhigh2: i32,
) -> Query
    ensures { result ≡ query_from start end xlow xhigh ylow yhigh xlow2 xhigh2 ylow2 yhigh2 }
{
    let x = Edges {
        low: xlow,
        high: xhigh,
        low2: xlow2,
        high2: xhigh2,
    };
    let y = Edges {
        low: ylow,
        high: yhigh,
        low2: ylow2,
        high2: yhigh2,
    };
    Query {
        start: Minute { at: start },
        end: Minute { at: end },
        x,
        y,
    }
}

// The same for a window, which keeps to one rectangle.
pub fn window_from(start: i32, end: i32, xlow: i32, xhigh: i32, ylow: i32, yhigh: i32) -> Query
    ensures { result ≡ window_from start end xlow xhigh ylow yhigh }
{
    query_from(
        start, end, xlow, xhigh, ylow, yhigh, xlow, xhigh, ylow, yhigh,
    )
}

fn edges_in_range(e: Edges) -> bool
    ensures { Tells result (EdgesInRange e) }
{
    is_position(e.low) & is_position(e.high) & is_position(e.low2) & is_position(e.high2)
}

fn query_in_range(q: Query) -> bool
    ensures { Tells result (QueryInRange q) }
{
    is_minute(q.start.at) & is_minute(q.end.at) & edges_in_range(q.x) & edges_in_range(q.y)
}

fn crossed(e: Edges) -> bool
    ensures { Tells result (Crossed e) }
{
    (e.high < e.low) | (e.high2 < e.low2)
}

fn ends_before_start(q: Query) -> bool
    ensures { Tells result (EndsBeforeStart q) }
{
    q.end.at < q.start.at
}

fn ends_by_start(q: Query) -> bool
    ensures { Tells result (EndsByStart q) }
{
    q.end.at <= q.start.at
}

// The query, where nothing speaks against it when the clock stands at `clock`.
fn judged(clock: i32, backward: bool, q: Query) -> Result<Query, Refusal>
    ensures { Asks clock (T backward) q result }
{
    if !query_in_range(q) {
        return Err(Refusal::OutOfRange);
    }
    if q.start.at < clock {
        return Err(Refusal::BeforeClock);
    }
    if backward | (crossed(q.x) | crossed(q.y)) {
        return Err(Refusal::Backward);
    }
    Ok(q)
}

impl Edges {
    // The first edges, kept to the end.
    fn still(self) -> Edges
        ensures { result ≡ still_edges self }
    {
        Edges {
            low2: self.low,
            high2: self.high,
            ..self
        }
    }
}

impl Query {
    // The window that keeps to the first rectangle.
    fn still(self) -> Query
        ensures { result ≡ still self }
    {
        Query {
            x: self.x.still(),
            y: self.y.still(),
            ..self
        }
    }

    // A window asked when the clock stands at `clock`: one rectangle, the query's first, from start to end.
    pub fn window(clock: i32, q: Query) -> Result<Query, Refusal>
        ensures { Asks clock (EndsBeforeStart q) (still q) result }
    {
        judged(clock, ends_before_start(q), q.still())
    }

    // A moving query asked when the clock stands at `clock`.
    pub fn moving(clock: i32, q: Query) -> Result<Query, Refusal>
        ensures { Asks clock (EndsByStart q) q result }
    {
        judged(clock, ends_by_start(q), q)
    }
}
