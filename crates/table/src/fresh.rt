// Making a fresh table in the lent words.
ghost use Rattle.std.specs.Prelude.{◌≤◌, length};
ghost use Rattle.words.specs.Layout.{node_start};
ghost use Rattle.words.specs.Words.{nat_of};
ghost use Rattle.track.specs.Refusals.{number_of};
ghost use Rattle.table.specs.Header.{IsCapacity, words_for};
ghost use Rattle.table.specs.Fresh.{IsFresh, MakesFresh};
ghost use Rattle.table.specs.Inner.FreshMade.{Freed};

use crate::header::{is_capacity, nodes_for, set_capacity, set_clock, set_root, words_for};
use node::change_at::keep_at;
use track::refusal::Refusal;
use words::place;

// Makes each of the first nodes a free one.
fn free_all(t: &mut [i32], nodes: usize)
    requires { node_start nodes ≤ length t.old }
    ensures { Freed nodes t.old nodes t.new }
{
    for i in 0..nodes {
        keep_at(t, i, 0);
    }
}

// Writes a table with room for so many cells: the clock and the height are 0, and the root is node 0.
fn write(t: &mut [i32], cells: i32)
    requires { (IsCapacity cells) × (words_for (nat_of cells) ≤ length t.old) }
    ensures { IsFresh cells t.old t.new }
{
    free_all(t, nodes_for(place(cells)));
    set_capacity(t, cells);
    set_clock(t, 0);
    set_root(t, 0, 0);
}

pub fn fresh(t: &mut [i32], cells: i32) -> Result<(), Refusal>
    ensures { MakesFresh cells t.old (number_of result) t.new }
{
    if !is_capacity(cells) {
        return Err(Refusal::BadCapacity);
    }
    if t.len() < words_for(place(cells)) {
        return Err(Refusal::ShortTable);
    }
    write(t, cells);
    Ok(())
}
