// Whether a table is sound.
ghost use Rattle.std.specs.Prelude.{◌≡◌, ◌≤◌, length};
ghost use Rattle.whole.specs.Tells.{Tells};
ghost use Rattle.whole.specs.Lists.{NoRepeat};
ghost use Rattle.words.specs.Layout.{InTable};
ghost use Rattle.table.specs.Header.{capacity, nodes_for, words_for};
ghost use Rattle.table.specs.Sound.{Sound};
ghost use Rattle.table.specs.Inner.SoundBy.{FreeUnless, RestFree, TableHeaderSound, RootSound, Clear};

use crate::header::{NODES, capacity, clock, header_sound, height, nodes_for, root};
use crate::nodes::{count_at, node_at};
use crate::scan::Tested;
use node::entry::is_counted;
use track::range::MOST_CELLS;
use words::word;

// Whether the root has a count of entries, at least 2 where it is no leaf.
fn root_sound(t: &[i32]) -> bool
    requires { TableHeaderSound t.now }
    ensures { Tells result (RootSound t.now) }
{
    let i = root(t);
    is_counted(node_at(t, i)) && (height(t) == 0 || 2 <= count_at(t, i))
}

// Whether node i is free, unless it has a mark.
fn free_unless(t: &[i32], i: usize, mark: u8) -> bool
    requires { InTable t.now i }
    ensures { Tells result (FreeUnless t.now mark i) }
{
    mark != 0 || word(node_at(t, i), 0) == 0
}

// Whether each node that has no mark is free.
fn rest_free(t: &[i32], nodes: usize, marks: &[u8]) -> bool
    requires { (nodes ≡ nodes_for (capacity t.now)) × (words_for (capacity t.now) ≤ length t.now) × (nodes ≤ length marks.now) }
    ensures { Tells result (RestFree t.now marks.now) }
{
    (0..nodes).all(|i| free_unless(t, i, marks[i]))
}

// Sorts the keys, and tells whether none stood twice.
fn distinct(keys: &mut [u64]) -> bool
    ensures tells { Tells result (NoRepeat keys.old) }
    ensures keys_len_unchanged { length keys.new ≡ length keys.old }
{
    sort::sort(keys);
    sort::rises(keys)
}

// Whether a table whose header and root are sound is sound: one pass over the tree, then what it leaves.
fn judged(t: &[i32], marks: &mut [u8], keys: &mut [u64]) -> bool
    requires { (TableHeaderSound t.now) × (RootSound t.now) × (Clear marks.old keys.old) }
    ensures { Tells result (Sound t.now) }
{
    let cells = capacity(t);
    let i = root(t);
    marks[i] = 1;
    let tested = Tested {
        table: t,
        cells,
        clock: clock(t),
    };
    match tested.pass(height(t), i, marks, keys, 0) {
        Some(m) => rest_free(t, nodes_for(cells), marks) && distinct(&mut keys[..m]),
        None => false,
    }
}

fn tree_sound(t: &[i32]) -> bool
    requires { (TableHeaderSound t.now) × (RootSound t.now) }
    ensures { Tells result (Sound t.now) }
{
    let mut marks = [0u8; NODES];
    let mut keys = [0u64; MOST_CELLS];
    judged(t, &mut marks, &mut keys)
}

pub fn is_sound(t: &[i32]) -> bool
    ensures { Tells result (Sound t.now) }
{
    header_sound(t) && root_sound(t) && tree_sound(t)
}
