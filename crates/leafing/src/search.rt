// The search for the next live cell.
ghost use Rattle.std.specs.Prelude.{◌≡◌, [], ◌∷◌, drop};
ghost use Rattle.track.specs.Refusals.{First, number_of};
ghost use Rattle.table.specs.Header.{entries_at};
ghost use Rattle.table.specs.Sound.{Sound};
ghost use Rattle.table.specs.Inner.Walk.{CanWalk};
ghost use Rattle.leafing.specs.NextLive.{NextLive, Steps, opening_reasons, last_after};
ghost use Rattle.leafing.specs.Inner.Search.{Extends, Looks};

use node::entry::{cell, child, count};
use table::header::{clock, height, root};
use table::nodes::node_at;
use table::sound::is_sound;
use track::cell::Cell;
use track::refusal::Refusal;

// What is looked for: cells that live at the clock, with an identifier above the last.
#[derive(Clone, Copy)]
pub struct Sought {
    pub clock: i32,
    pub last: i32,
}

// Of the best until now and one cell more, that which comes next: the one with the lower identifier, if the cell is sought at all.
fn lower(s: Sought, best: Option<Cell>, c: Cell) -> Option<Cell>
    ensures { Extends s (c ∷ []) best result }
{
    let in_life = s.clock < c.expiry.at;
    let above = s.last < c.id;
    if !(in_life & above) {
        return best;
    }
    let Some(b) = best else {
        return Some(c);
    };
    if b.id <= c.id { best } else { Some(c) }
}

// The best of what was found until now and of the cells beneath node i, which has h levels beneath it, from its entry k on.
fn lowest_beneath(
    t: &[i32],
    s: Sought,
    h: usize,
    i: usize,
    k: usize,
    best: Option<Cell>,
) -> Option<Cell>
    requires { CanWalk t.now h i }
    ensures { Looks (entries_at t.now) s h (drop k (entries_at t.now i)) best result }
{
    let node = node_at(t, i);
    if count(node) <= k {
        return best;
    }
    if h == 0 {
        let better = lower(s, best, cell(node, k));
        return lowest_beneath(t, s, h, i, k + 1, better);
    }
    let below = lowest_beneath(t, s, h - 1, child(node, k), 0, best);
    lowest_beneath(t, s, h, i, k + 1, below)
}

// The live cell of a sound table with the least identifier above the last.
pub fn next_of_sound(t: &[i32], last: i32) -> Option<Cell>
    requires { Sound t.now }
    ensures { NextLive t.now last result }
{
    let s = Sought {
        clock: clock(t),
        last,
    };
    lowest_beneath(t, s, height(t), root(t), 0, None)
}

// The same over any words: those that are no sound table have no next cell.
pub fn next_live(t: &[i32], last: i32) -> Option<Cell>
    ensures { Steps t.now last result }
{
    if !is_sound(t) {
        return None;
    }
    next_of_sound(t, last)
}

// What comes of an opening over these words.
pub fn opening(t: &[i32]) -> Result<(), Refusal>
    ensures { First (opening_reasons t.now) (number_of result) }
{
    if is_sound(t) {
        Ok(())
    } else {
        Err(Refusal::NotSound)
    }
}

// The identifier that a leafing goes on from after a step.
pub fn last_after(r: Option<Cell>, last: i32) -> i32
    ensures { result ≡ last_after r last }
{
    r.map_or(last, |c| c.id)
}
