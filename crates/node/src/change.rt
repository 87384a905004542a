// A node's entries, changed. The node's words are lent by themselves.
ghost use Rattle.std.specs.Prelude.{◌≡◌, [], ◌∷◌, ◌++◌, ◌<◌, ◌≤◌, pos, length, set, take};
ghost use Rattle.words.specs.Layout.{node_words, full_node};
ghost use Rattle.node.specs.Entry.{entry_count_word, entry_count, entries_of};
ghost use Rattle.node.specs.Inner.Change.{without, NodeChanged};

use crate::entry::count;
use words::{ENTRY_WORDS, Entry, copy_within, entry_offset, put_count, put_entry};

// The entry is put in the place of entry k.
pub fn put(node: &mut [i32], k: usize, e: Entry)
    requires { (length node.old ≡ node_words) × (k < entry_count node.old) }
    ensures { NodeChanged node.old (set (entries_of node.old) k e) node.new }
{
    put_entry(node, k, e);
}

// The entry is put behind the others.
pub fn append(node: &mut [i32], e: Entry)
    requires { (length node.old ≡ node_words) × (entry_count node.old < full_node) }
    ensures { NodeChanged node.old (entries_of node.old ++ e ∷ []) node.new }
{
    let n = count(node);
    put_entry(node, n, e);
    put_count(node, n + 1);
}

// Entry k is taken out: the later ones move down by one.
pub fn remove(node: &mut [i32], k: usize)
    requires { (length node.old ≡ node_words) × (k < entry_count node.old) }
    ensures { NodeChanged node.old (without k (entries_of node.old)) node.new }
{
    let n = count(node) - 1;
    let a = entry_offset(k);
    copy_within(node, a + ENTRY_WORDS, a, ENTRY_WORDS * (n - k));
    put_count(node, n);
}

// The first n entries are kept; with none the node is free.
pub fn keep(node: &mut [i32], n: usize)
    requires { (length node.old ≡ node_words) × (n ≤ entry_count node.old) }
    ensures { NodeChanged node.old (take n (entries_of node.old)) node.new × (entry_count_word node.new ≡ pos n) }
{
    put_count(node, n);
}
