// The words of a table that is lent as a slice: read, written, copied. The readers answer for every place, with 0 past the end.
#![tactic(auto)]

ghost use Rattle.std.specs.Prelude.{◌≡◌, ◌+◌, ◌^◌, ◌<◌, ◌≤◌, pos, length, drop};
ghost use Rattle.words.specs.Parts.{part, put};
ghost use Rattle.words.specs.Inner.Parts.{CanCopy};
ghost use Rattle.words.specs.Layout.{node_start, entry_offset, node_limit, node_words, entry_words, full_node, entry_at, set_entry};
ghost use Rattle.words.specs.Words.{word_at, nat_of, row_at, rows_at, with_count};

use std::array;

// The sizes of specs/Layout.antt, for the code.
pub const HEADER: usize = 16;

pub const NODE_WORDS: usize = 96;

pub const OWN_WORDS: usize = 8;

pub const ENTRY_WORDS: usize = 11;

pub const FULL_NODE: usize = 8;

// The words of an entry by value.
pub type Entry = [i32; ENTRY_WORDS];

// The place of node i's first word.
pub fn node_start(i: usize) -> usize
    requires { i < node_limit }
    ensures { result ≡ node_start i }
{
    HEADER + NODE_WORDS * i
}

// The place of entry k's first word in its node.
pub fn entry_offset(k: usize) -> usize
    requires { k < full_node }
    ensures { result ≡ entry_offset k }
{
    OWN_WORDS + ENTRY_WORDS * k
}

// The word at a place.
pub fn word(t: &[i32], at: usize) -> i32
    ensures { result ≡ word_at t.now at }
{
    t.get(at).copied().unwrap_or(0)
}

// A word taken for a count or an index.
pub fn place(z: i32) -> usize
    ensures { (result ≡ nat_of z) × (result < 2 ^ 31) }
{
    z.max(0) as usize
}

// The word at a place, taken for a count or an index.
pub fn place_at(t: &[i32], at: usize) -> usize
    ensures { (result ≡ nat_of (word_at t.now at)) × (result < 2 ^ 31) }
{
    place(word(t, at))
}

// A count or an index as a word.
pub fn word_of(n: usize) -> i32
    requires { n < 2 ^ 31 }
    ensures { result ≡ pos n }
{
    n as i32
}

// What is left of the table from a place on, nothing past the end.
fn from_place(t: &[i32], at: usize) -> &[i32]
    ensures { result.now ≡ drop at t.now }
{
    t.get(at..).unwrap_or(&[])
}

// The four words from a place on.
pub fn row(t: &[i32], at: usize) -> [i32; 4]
    ensures { result ≡ row_at t.now at }
{
    let rest = from_place(t, at);
    array::from_fn(|j| word(rest, j))
}

// The two rows from a place on.
pub fn rows(t: &[i32], at: usize) -> [[i32; 4]; 2]
    ensures { result ≡ rows_at t.now at }
{
    let rest = from_place(t, at);
    [row(rest, 0), row(rest, 4)]
}

// Writes numbers, or elements of another type, one after the other from a place on.
pub fn put_run<T: Copy>(t: &mut [T], at: usize, numbers: &[T])
    requires { at + length numbers.now ≤ length t.old }
    ensures { t.new ≡ put t.old at (length numbers.now) numbers.now }
{
    t[at..at + numbers.len()].copy_from_slice(numbers);
}

// Copies the n words from `from` on to the places from `to` on. Not by the library's `copy_within`, which takes any overlap: the must-fail edit
// overlaps_upward is a mistake of this loop.
pub fn copy_within(t: &mut [i32], from: usize, to: usize, n: usize)
    requires { CanCopy t.old from to n }
    ensures { t.new ≡ put t.old to n (part t.old from n) }
{
    for j in 0..n {
        t[to + j] = t[from + j];
    }
}

// The words of a node's entry k.
pub fn entry(node: &[i32], k: usize) -> Entry
    requires { (length node.now ≡ node_words) × (k < full_node) }
    ensures { result ≡ entry_at node.now k }
{
    let a = entry_offset(k);
    let mut e = [0; ENTRY_WORDS];
    e.copy_from_slice(&node[a..a + ENTRY_WORDS]);
    e
}

// Writes a node's entry k.
pub fn put_entry(node: &mut [i32], k: usize, e: Entry)
    requires { (length node.old ≡ node_words) × (k < full_node) }
    ensures { (node.new ≡ set_entry node.old k e) × (length e ≡ entry_words) }
{
    put_run(node, entry_offset(k), &e);
}

// Writes the count of a node's entries.
pub fn put_count(node: &mut [i32], n: usize)
    requires { (0 < length node.old) × (n < 2 ^ 31) }
    ensures { node.new ≡ with_count node.old n }
{
    node[0] = word_of(n);
}
