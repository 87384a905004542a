// Finding a free node.
ghost use Rattle.std.specs.Prelude.{◌≤◌, length};
ghost use Rattle.words.specs.Layout.{node_start};
ghost use Rattle.table.specs.Header.{entries_at};
ghost use Rattle.tree_nodes.specs.Inner.FirstFree.{FirstFree};

use table::nodes::count_at;

// The first free node of so many, if one is free.
pub fn free_node(t: &[i32], nodes: usize) -> Option<usize>
    requires { node_start nodes ≤ length t.now }
    ensures { FirstFree (entries_at t.now) nodes result }
{
    (0..nodes).find(|i| count_at(t, *i) == 0)
}
