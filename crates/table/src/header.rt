// The header of a table: its words are read and written here and nowhere else. And what a table of so many cells needs.
ghost use Rattle.std.specs.Prelude.{◌≡◌, ◌≤◌, ◌<◌, ◌^◌, length};
ghost use Rattle.whole.specs.Tells.{Tells};
ghost use Rattle.words.specs.Layout.{header};
ghost use Rattle.table.specs.Header.{capacity, clock, root, height, IsCapacity, IsNode, nodes_for, words_for};
ghost use Rattle.table.specs.Inner.Headed.{CapacitySet, Clocked, Rooted};
ghost use Rattle.table.specs.Inner.SoundBy.{TableHeaderSound};

use track::minute::is_minute;
use track::range::MOST_CELLS;
use words::{node_start, place, place_at, word, word_of};

// The places of the header's words.
const CAPACITY: usize = 0;

const CLOCK: usize = 1;

const ROOT: usize = 2;

const HEIGHT: usize = 3;

// The nodes of a table for the most cells.
pub const NODES: usize = MOST_CELLS / 2 + 1;

pub fn capacity(t: &[i32]) -> usize
    ensures { (result ≡ capacity t.now) × (result < 2 ^ 31) }
{
    place_at(t, CAPACITY)
}

pub fn clock(t: &[i32]) -> i32
    ensures { result ≡ clock t.now }
{
    word(t, CLOCK)
}

pub fn root(t: &[i32]) -> usize
    ensures { (result ≡ root t.now) × (result < 2 ^ 31) }
{
    place_at(t, ROOT)
}

pub fn height(t: &[i32]) -> usize
    ensures { (result ≡ height t.now) × (result < 2 ^ 31) }
{
    place_at(t, HEIGHT)
}

// Each word is set by its name: a setter of any of them would be told its place, which nobody else knows.
pub fn set_capacity(t: &mut [i32], cells: i32)
    requires { header ≤ length t.old }
    ensures { CapacitySet t.old cells t.new }
{
    t[CAPACITY] = cells;
}

pub fn set_clock(t: &mut [i32], minute: i32)
    requires { header ≤ length t.old }
    ensures { Clocked t.old minute t.new }
{
    t[CLOCK] = minute;
}

pub fn set_root(t: &mut [i32], root: usize, height: usize)
    requires { (header ≤ length t.old) × (root < 2 ^ 31) × (height < 2 ^ 31) }
    ensures { Rooted t.old root height t.new }
{
    t[ROOT] = word_of(root);
    t[HEIGHT] = word_of(height);
}

pub fn is_capacity(n: i32) -> bool
    ensures { Tells result (IsCapacity n) }
{
    (1..=MOST_CELLS).contains(&place(n))
}

// How many nodes a table of so many cells has.
pub fn nodes_for(cells: usize) -> usize
    ensures { result ≡ nodes_for cells }
{
    cells / 2 + 1
}

// How many nodes the table has.
pub fn nodes(t: &[i32]) -> usize
    ensures { result ≡ nodes_for (capacity t.now) }
{
    nodes_for(capacity(t))
}

pub fn words_for(cells: usize) -> usize
    requires { cells < 2 ^ 31 }
    ensures { result ≡ words_for cells }
{
    node_start(nodes_for(cells))
}

// Whether z is the number of a node in a table of so many cells.
pub fn is_node(cells: usize, z: i32) -> bool
    ensures { Tells result (IsNode cells z) }
{
    0 <= z && place(z) < nodes_for(cells)
}

// Whether the lent words suffice for the capacity, and the header's other numbers are in range.
pub fn header_sound(t: &[i32]) -> bool
    ensures { Tells result (TableHeaderSound t.now) }
{
    let cells = capacity(t);
    is_capacity(word(t, CAPACITY))
        && is_minute(clock(t))
        && words_for(cells) <= t.len()
        && is_node(cells, word(t, ROOT))
        && 0 <= word(t, HEIGHT)
}
