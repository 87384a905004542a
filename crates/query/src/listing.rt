// The hits of a query, written to a lent list.
ghost use Rattle.std.specs.Prelude.{◌≡◌, map, ◌++◌, ◌≤◌, pos, length, take, drop};
ghost use Rattle.table.specs.Header.{greatest_capacity};
ghost use Rattle.query.specs.Queried.{Answers};
ghost use Rattle.query.specs.Inner.Gathering.{CanAsk, Gathered};
ghost use Rattle.query.specs.Inner.IdsWritten.{CanWrite};
ghost use Rattle.query.specs.Inner.Answering.{too_many, JudgedAtClock, judged_reasons, asked_query};

use crate::answer::{Found, NotListed};
use crate::opening::open_entries;
use sort::sort;
use table::header::{height, root};
use table::sound::is_sound;
use track::queries::Query;
use track::range::MOST_CELLS;
use track::refusal::Refusal;

// Gathers the identifiers of the cells that meet the query, in rising order.
fn gather(t: &[i32], q: Query, keys: &mut [u64]) -> Found
    requires { (CanAsk t.now q) × (greatest_capacity ≤ length keys.old) }
    ensures { Gathered t.now q result keys.new }
{
    let only_root = Found { hits: 0, opened: 1 };
    let found = open_entries(t, q, height(t), root(t), 0, keys, only_root);
    sort(&mut keys[..found.hits]);
    found
}

// Writes the first m keys to the list's first places.
fn put_ids(list: &mut [i32], keys: &[u64], m: usize)
    requires { CanWrite list.old keys.now m }
    ensures { list.new ≡ map pos (take m keys.now) ++ drop m list.old }
{
    for (j, key) in keys[..m].iter().enumerate() {
        list[j] = *key as i32;
    }
}

// Lists the cells that meet the query, if the list has room for them.
fn listed(t: &[i32], list: &mut [i32], q: Query) -> Result<Found, NotListed>
    requires { CanAsk t.now q }
    ensures { Answers (too_many t.now q list.old) t.now q list.old result list.new }
{
    let mut keys = [0; MOST_CELLS];
    let found = gather(t, q, &mut keys);
    let m = found.hits;
    if list.len() < m {
        return Err(NotListed::TooMany(m));
    }
    put_ids(list, &keys, m);
    Ok(found)
}

// The answer to a query that was judged at the table's clock.
pub fn answered(
    t: &[i32],
    list: &mut [i32],
    asked: Result<Query, Refusal>,
) -> Result<Found, NotListed>
    requires { JudgedAtClock t.now asked }
    ensures { Answers (judged_reasons t.now asked list.old) t.now (asked_query asked) list.old result list.new }
{
    if !is_sound(t) {
        return Err(NotListed::Refused(Refusal::NotSound));
    }
    listed(t, list, asked?)
}
