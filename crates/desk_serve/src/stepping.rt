// Reports and drops, answered in words.
ghost use Rattle.std.specs.Prelude.{◌≤◌, length};
ghost use Rattle.tree.specs.Steps.{ReportSteps, DropSteps};
ghost use Rattle.track.specs.Refusals.{number_of};
ghost use Rattle.desk_answers.specs.AnswerLines.{LineWritten};
ghost use Rattle.desk_serve.specs.Answered.{longest_answer, OutcomeLine, StepLine};

use desk_answers::{spell_no, spell_ok};
use desk_lines::DropNumbers;
use track::refusal::Refusal;
use track::report::Report;
use tree::change::{drop, report};

fn tell_outcome(outcome: Result<(), Refusal>, out: &mut [u8]) -> usize
    requires { longest_answer ≤ length out.old }
    ensures { LineWritten (OutcomeLine (number_of outcome)) out.old out.new result }
{
    match outcome {
        Ok(()) => spell_ok(out),
        Err(why) => spell_no(out, why.number()),
    }
}

pub fn answer_cell(t: &mut [i32], r: Report, out: &mut [u8]) -> usize
    requires { longest_answer ≤ length out.old }
    ensures { LineWritten (StepLine (λ n. ReportSteps t.old r n t.new)) out.old out.new result }
{
    let outcome = report(t, r);
    tell_outcome(outcome, out)
}

pub fn answer_drop(t: &mut [i32], d: DropNumbers, out: &mut [u8]) -> usize
    requires { longest_answer ≤ length out.old }
    ensures { LineWritten (StepLine (λ n. DropSteps t.old d.id d.minute n t.new)) out.old out.new result }
{
    let outcome = drop(t, d.id, d.minute);
    tell_outcome(outcome, out)
}
