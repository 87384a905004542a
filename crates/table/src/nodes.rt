// A table's nodes by their numbers.
ghost use Rattle.std.specs.Prelude.{◌≡◌, [], ◌<◌, length, get_or};
ghost use Rattle.words.specs.Layout.{InTable, node_at};
ghost use Rattle.node.specs.Entry.{child_of};
ghost use Rattle.table.specs.Header.{entries_at};

use node::entry::{child, count};
use words::{NODE_WORDS, node_start};

// The words of node i.
pub fn node_at(t: &[i32], i: usize) -> &[i32]
    requires { InTable t.now i }
    ensures { result.now ≡ node_at t.now i }
{
    let a = node_start(i);
    let e = a + NODE_WORDS;
    &t[a..e]
}

// How many entries node i has.
pub fn count_at(t: &[i32], i: usize) -> usize
    requires { InTable t.now i }
    ensures { result ≡ length (entries_at t.now i) }
{
    count(node_at(t, i))
}

// The child of node i's entry k.
pub fn child_at(t: &[i32], i: usize, k: usize) -> usize
    requires { (InTable t.now i) × (k < length (entries_at t.now i)) }
    ensures { result ≡ child_of (get_or (entries_at t.now i) k []) }
{
    child(node_at(t, i), k)
}
