// Queries, answered in words.
ghost use Rattle.std.specs.Prelude.{◌≡◌, ◌≤◌, length};
ghost use Rattle.track.specs.Query.{still, EndsBeforeStart, EndsByStart};
ghost use Rattle.desk_answers.specs.AnswerLines.{LineWritten};
ghost use Rattle.desk_serve.specs.Answered.{desk_cells, longest_answer, AnswerLine, QueryLine};
ghost use Rattle.desk_serve.specs.Inner.Asking.{InList};

use desk_answers::{spell_hits, spell_no};
use query::answer::{Found, NotListed};
use query::{moving, window};
use track::queries::Query;

// An answer, with the list that it came with.
fn tell_answer(answer: Result<Found, NotListed>, list: &[i32], out: &mut [u8]) -> usize
    requires { InList answer list.now × (length list.now ≡ desk_cells) × (longest_answer ≤ length out.old) }
    ensures { LineWritten (AnswerLine answer list.now) out.old out.new result }
{
    match answer {
        Ok(found) => spell_hits(out, &list[..found.hits]),
        Err(why) => spell_no(out, why.number()),
    }
}

// One function for a window and a moving query would take the call as a closure, with clauses for what it leaves in the list.
pub fn answer_when(t: &[i32], list: &mut [i32], q: Query, out: &mut [u8]) -> usize
    requires { (length list.old ≡ desk_cells) × (longest_answer ≤ length out.old) }
    ensures { LineWritten (QueryLine t.now (EndsBeforeStart q) (still q)) out.old out.new result }
{
    let answer = window(t, list, q);
    tell_answer(answer, list, out)
}

pub fn answer_move(t: &[i32], list: &mut [i32], q: Query, out: &mut [u8]) -> usize
    requires { (length list.old ≡ desk_cells) × (longest_answer ≤ length out.old) }
    ensures { LineWritten (QueryLine t.now (EndsByStart q) q) out.old out.new result }
{
    let answer = moving(t, list, q);
    tell_answer(answer, list, out)
}
