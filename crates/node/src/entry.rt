// What a node's words are read as. A node is any slice of words: a word past its end is read as 0.
ghost use Rattle.std.specs.Prelude.{◌≡◌, ◌<◌, ◌^◌};
ghost use Rattle.whole.specs.Tells.{Tells};
ghost use Rattle.words.specs.Layout.{entry_at, entry_words, full_node};
ghost use Rattle.words.specs.Words.{word_at};
ghost use Rattle.node.specs.Entry.{entry_count_word, IsCount, entry_count, cell_of, child_word, child_of, stamp_of, bounds_of, until_of};

use track::cell::Cell;
use track::meeting::{Bounds, cell_bounds};
use track::minute::Minute;
use words::{FULL_NODE, entry_offset, place, place_at, rows, word};

// How many entries the node has, no more than it has room for.
pub fn count(node: &[i32]) -> usize
    ensures { result ≡ entry_count node.now }
{
    place_at(node, 0).min(FULL_NODE)
}

// Whether the word for the count is one.
pub fn is_counted(node: &[i32]) -> bool
    ensures { Tells result (IsCount (entry_count_word node.now)) }
{
    usize::try_from(word(node, 0)).is_ok_and(|n| n <= FULL_NODE)
}

// The word at a place of entry k.
fn entry_word(node: &[i32], k: usize, at: usize) -> i32
    requires { (k < full_node) × (at < entry_words) }
    ensures { result ≡ word_at (entry_at node.now k) at }
{
    word(node, entry_offset(k) + at)
}

// The cell that a leaf's entry k is.
pub fn cell(node: &[i32], k: usize) -> Cell
    requires { k < full_node }
    ensures { result ≡ cell_of (entry_at node.now k) }
{
    Cell {
        id: entry_word(node, k, 0),
        x: entry_word(node, k, 1),
        vx: entry_word(node, k, 2),
        y: entry_word(node, k, 3),
        vy: entry_word(node, k, 4),
        expiry: Minute {
            at: entry_word(node, k, 5),
        },
    }
}

// The word for the child of an inner entry.
pub fn child_word(node: &[i32], k: usize) -> i32
    requires { k < full_node }
    ensures { result ≡ child_word (entry_at node.now k) }
{
    entry_word(node, k, 0)
}

// The child of an inner entry, as a node's number.
pub fn child(node: &[i32], k: usize) -> usize
    requires { k < full_node }
    ensures { (result ≡ child_of (entry_at node.now k)) × (result < 2 ^ 31) }
{
    place(child_word(node, k))
}

// The minute at which an inner entry was last worked out.
pub fn stamp(node: &[i32], k: usize) -> i32
    requires { k < full_node }
    ensures { result ≡ stamp_of (entry_at node.now k) }
{
    entry_word(node, k, 10)
}

// The bounds of an entry: a row for x and a row for y.
pub fn bounds(node: &[i32], k: usize, leaf: bool) -> Bounds
    requires { k < full_node }
    ensures { result ≡ bounds_of leaf (entry_at node.now k) }
{
    if leaf {
        cell_bounds(cell(node, k))
    } else {
        rows(node, entry_offset(k) + 1)
    }
}

// The expiry of a cell, the greatest one beneath an inner entry.
pub fn until(node: &[i32], k: usize, leaf: bool) -> i32
    requires { k < full_node }
    ensures { result ≡ until_of leaf (entry_at node.now k) }
{
    if leaf {
        entry_word(node, k, 5)
    } else {
        entry_word(node, k, 9)
    }
}
