// The run of an accepted plan over a reel, into a lent output: nothing is written before everything is checked. Document 01, "Blocks and records" and
// "Refusal numbers".
#![tactic(auto)]

ghost use Rattle.std.specs.Prelude.{◌≡◌, length};
ghost use Rattle.rules.specs.Run.{conversion};
ghost use Rattle.rules.specs.Lent.{zone_f, run_answer, output_after};
ghost use Rattle.terms.specs.Meaning.{plan_in};
ghost use Rattle.rows.specs.Kept.{fields_in};
ghost use Rattle.rows.specs.Fair.{PlanFair};
ghost use Rattle.outcomes.specs.Promise.{ran_struct};
ghost use Rattle.checks.specs.Promise.{SomePlanGiven};
ghost use Rattle.runs.specs.Promise.{Finishing, ReelWritten, PlanRanInto};

use outcomes::Ran;
use terms::{Asked, Task};

// Writes the output reel of a run that finishes. The output of TC is its input.
fn write(task: Task, fields: &[u16], reel: &[u8], blocks: usize, out: &mut [u8])
    requires { Finishing task fields.now reel.now blocks (length out.old) }
    ensures { ReelWritten task fields.now reel.now blocks out.old out.new }
{
    if terms::is_tc(task.mode) {
        copies::copy(reel, out);
    } else {
        writers::write_reel(task, fields, reel, blocks, out);
    }
}

// A run that is refused writes nothing. The C struct is what is answered, refused or not, so its number is asked: an error and `?` would add a type and a conversion.
fn run(task: Task, fields: &[u16], reel: &[u8], out: &mut [u8]) -> Ran
    requires { SomePlanGiven task fields.now }
    ensures { PlanRanInto task fields.now reel.now out.old result out.new }
{
    let answer = checks::check(task, fields, reel, out.len());
    let refusal = answer.refusal;
    if refusal > 0 {
        return answer;
    }
    write(task, fields, reel, answer.blocks, out);
    answer
}

// The run of a plan over a reel: refusals 11 to 15, or the output reel at the front of what is lent. FS has a run of its own, since no record is in a block by
// itself there.
pub fn run_plan(asked: Asked, fields: &[u16], reel: &[u8], out: &mut [u8]) -> Ran
    requires { PlanFair asked fields.now }
    ensures answer { result ≡ ran_struct (run_answer (conversion (length out.old) (plan_in zone_f asked (fields_in fields.now)) reel.now)) }
    ensures output { out.new ≡ output_after out.old (conversion (length out.old) (plan_in zone_f asked (fields_in fields.now)) reel.now) }
{
    if terms::is_fs(asked.format) {
        let copies = terms::is_tc(asked.mode);
        let g = terms::block_length(asked.input);
        let m = terms::block_length(asked.output);
        return spans::run_spanned(copies, g, m, asked.first, reel, out);
    }
    let task = tasks::task_of(asked);
    run(task, fields, reel, out)
}
