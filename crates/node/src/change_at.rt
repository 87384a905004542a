// The entries of node i of a table, read and changed. The node's words are lent on, so all others are seen to stay as they are.
ghost use Rattle.std.specs.Prelude.{◌≡◌, [], ◌∷◌, ◌++◌, ◌+◌, ◌<◌, ◌≤◌, pos, take, set};
ghost use Rattle.words.specs.Layout.{full_node, node_limit, node_start, node_words, InTable, node_at, entry_at};
ghost use Rattle.node.specs.Entry.{entry_count_word, entry_count, entries_of};
ghost use Rattle.node.specs.Inner.Change.{without};
ghost use Rattle.node.specs.Inner.ChangeAt.{Changed};

use crate::change::{append, keep, put, remove};
use std::ops::Range;
use words::{Entry, NODE_WORDS, entry, node_start};

// The places of node i's words.
fn node_range(i: usize) -> Range<usize>
    requires { i < node_limit }
    ensures { (result.start ≡ node_start i) × (result.end ≡ node_start i + node_words) }
{
    let a = node_start(i);
    a..a + NODE_WORDS
}

pub fn entry_at(t: &[i32], i: usize, k: usize) -> Entry
    requires { (InTable t.now i) × (k < full_node) }
    ensures { result ≡ entry_at (node_at t.now i) k }
{
    entry(&t[node_range(i)], k)
}

pub fn put_at(t: &mut [i32], i: usize, k: usize, e: Entry)
    requires { (InTable t.old i) × (k < entry_count (node_at t.old i)) }
    ensures { Changed t.old i (set (entries_of (node_at t.old i)) k e) t.new }
{
    put(&mut t[node_range(i)], k, e);
}

pub fn append_at(t: &mut [i32], i: usize, e: Entry)
    requires { (InTable t.old i) × (entry_count (node_at t.old i) < full_node) }
    ensures { Changed t.old i (entries_of (node_at t.old i) ++ e ∷ []) t.new }
{
    append(&mut t[node_range(i)], e);
}

pub fn remove_at(t: &mut [i32], i: usize, k: usize)
    requires { (InTable t.old i) × (k < entry_count (node_at t.old i)) }
    ensures { Changed t.old i (without k (entries_of (node_at t.old i))) t.new }
{
    remove(&mut t[node_range(i)], k);
}

pub fn keep_at(t: &mut [i32], i: usize, n: usize)
    requires { (InTable t.old i) × (n ≤ entry_count (node_at t.old i)) }
    ensures { Changed t.old i (take n (entries_of (node_at t.old i))) t.new × (entry_count_word (node_at t.new i) ≡ pos n) }
{
    keep(&mut t[node_range(i)], n);
}
