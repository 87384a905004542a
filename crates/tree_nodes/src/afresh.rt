// Entries worked out afresh.
ghost use Rattle.std.specs.Prelude.{◌≡◌, ◌^◌, ◌<◌, set};
ghost use Rattle.words.specs.Layout.{InTable};
ghost use Rattle.track.specs.Numbers.{IsMinute};
ghost use Rattle.node.specs.Inner.Made.{InRangeAt};
ghost use Rattle.node.specs.Inner.ChangeAt.{Changed};
ghost use Rattle.table.specs.Header.{entries_at};
ghost use Rattle.tree_nodes.specs.Inner.EntryAfresh.{entry_above, CanRefresh};

use node::change_at::put_at;
use node::made::{inner_entry, work_out};
use table::nodes::node_at;
use words::Entry;

// The entry above a node, worked out at the minute.
pub fn entry_above(t: &[i32], child: usize, leaf: bool, minute: i32) -> Entry
    requires { (InTable t.now child) × (child < 2 ^ 31) × (IsMinute minute) × (InRangeAt leaf minute (entries_at t.now child)) }
    ensures { result ≡ entry_above (entries_at t.now) leaf minute child }
{
    let (b, until) = work_out(node_at(t, child), leaf, minute);
    inner_entry(child, b, until, minute)
}

// Puts the entry above a node, worked out at the minute, in the place of node i's entry k.
pub fn refresh(t: &mut [i32], i: usize, k: usize, child: usize, leaf: bool, minute: i32)
    requires { (CanRefresh t.old i k child) × (IsMinute minute) × (InRangeAt leaf minute (entries_at t.old child)) }
    ensures { Changed t.old i (set (entries_at t.old i) k (entry_above (entries_at t.old) leaf minute child)) t.new }
{
    let e = entry_above(t, child, leaf, minute);
    put_at(t, i, k, e);
}
