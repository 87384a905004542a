// Entries moved from one node to another.
ghost use Rattle.tree_choice.specs.Parting.{marked};
ghost use Rattle.table.specs.Header.{capacity};
ghost use Rattle.tree_nodes.specs.Inner.Shift.{CanShift, Shifted};
ghost use Rattle.tree_nodes.specs.Inner.Marked.{CanPart};

use node::change_at::{append_at, entry_at, remove_at};
use tree_choice::parting::Marks;
use words::FULL_NODE;

// Moves entry k of the one node behind the entries of the other.
pub fn move_entry(t: &mut [i32], from: usize, k: usize, to: usize)
    requires { CanShift t.old from k to }
    ensures { Shifted (capacity t.old) t.old from to 1 t.new }
{
    let e = entry_at(t, from, k);
    remove_at(t, from, k);
    append_at(t, to, e);
}

// Moves the marked entries of a full node to a free one, the last first, so that those before them keep their places.
pub fn move_marked(t: &mut [i32], from: usize, to: usize, marks: Marks)
    requires { CanPart t.old from to marks }
    ensures { Shifted (capacity t.old) t.old from to (marked marks) t.new }
{
    for k in (0..FULL_NODE).rev() {
        if marks[k] {
            move_entry(t, from, k, to);
        }
    }
}
