// The numbers of a plan, and what they say of a run: what is asked of input blocks, and how long the output of a record is. Document 01, "Blocks and records".
#![tactic(auto)]

ghost use Rattle.std.specs.Prelude.{◌≡◌, List, ◌≤◌};
ghost use Rattle.rules.specs.Halves.{Field as RuleField};
ghost use Rattle.rules.specs.Lent.{zone_f};
ghost use Rattle.terms.specs.Meaning.{plan_in, TaskIs};
ghost use Rattle.tasks.specs.Promise.{form_with, form_of, form_under, tail_length_of, output_length_of};

use pieces::Form;
use terms::{Asked, Mode, Task};

// The numbers that a run needs of the plan.
#[tactic(auto, unfolding(terms::specs::Meaning::plan_in))]
pub fn task_of(asked: Asked) -> Task
    ensures { (fs : List RuleField) → TaskIs result (plan_in zone_f asked fs) }
{
    Task {
        mode: asked.mode,
        format: asked.format,
        n: terms::record_length(asked.input),
        m: terms::block_length(asked.input),
        width: terms::record_length(asked.output),
        limit: terms::block_length(asked.output),
        cost: terms::cost(asked.format),
        first: asked.first,
        carries: asked.cv != 0,
    }
}

// What is asked of blocks that have these two numbers.
fn form(task: Task, n: usize, m: usize) -> Form
    ensures { result ≡ form_with task n m }
{
    Form {
        format: task.format,
        n,
        m,
        selects: terms::selects(task.mode),
    }
}

// What the plan asks of input blocks.
pub fn form_of(task: Task) -> Form
    ensures { result ≡ form_of task }
{
    form(task, task.n, task.m)
}

// What B asks of the blocks of a reel from elsewhere, which are to be such as this plan writes.
pub fn form_under(task: Task) -> Form
    ensures { result ≡ form_under task }
{
    form(task, task.width, task.limit)
}

// With CV, how much data past A's n follows.
#[tactic(auto, unfolding(crate::specs::Promise::tail_length_of))]
fn tail_length(task: Task, length: usize) -> usize
    ensures { result ≡ tail_length_of task length }
{
    if task.carries {
        length.saturating_sub(task.n)
    } else {
        0
    }
}

// The length of a record's output: TR carries records unchanged.
#[tactic(auto, using(crate::proofs::LengthLaws::tail_small), unfolding(crate::specs::Promise::output_length_of))]
pub fn output_length(task: Task, length: usize) -> usize
    requires { (task.width ≤ 65536) × (length ≤ 65536) }
    ensures { result ≡ output_length_of task length }
{
    match task.mode {
        Mode::TC | Mode::TR => length,
        Mode::TF | Mode::TRF => task.width + tail_length(task, length),
    }
}
