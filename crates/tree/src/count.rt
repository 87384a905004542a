// How many cells stay when those that go are cleared out.
ghost use Rattle.std.specs.Prelude.{◌≡◌};
ghost use Rattle.tree.specs.Inner.Staying.{CanCount, stay_from};

use table::nodes::{child_at, count_at};
use tree_nodes::take::goes_at;

// How many cells stay, of those below node i from its entry k on. The node has h levels beneath it.
pub fn staying(t: &[i32], h: usize, i: usize, k: usize, minute: i32, id: i32) -> usize
    requires { CanCount t.now h i }
    ensures { result ≡ stay_from t.now minute id h i k }
{
    let mut many = 0;
    for at in k..count_at(t, i) {
        many += if h == 0 {
            usize::from(!goes_at(t, i, at, minute, id))
        } else {
            staying(t, h - 1, child_at(t, i, at), 0, minute, id)
        };
    }
    many
}
