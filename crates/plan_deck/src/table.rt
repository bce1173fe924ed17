// The plan as lines on standard output, each a word and numbers: the sizes of the records, each field, each run of lost halves, the tail, and what each part of the
// output record is written by. Where records are carried unchanged, by TC or TR, there are none of these.
ghost use Rattle.std.specs.Prelude.{◌+◌, ◌≤◌, ◌<◌};
ghost use Rattle.rules.specs.Plan.{record_length};
ghost use Rattle.terms.specs.Meaning.{size_of};
ghost use Rattle.rows.specs.Fair.{PlanFair};
ghost use Rattle.sources.specs.Promise.{RowInside};

use terms::{Asked, Field};

// A word and numbers.
fn line(rt: &HostRuntime, word: &str, numbers: &[usize]) {
    notices::phrase(rt, word);
    notices::line(rt, numbers);
}

// The bytes of an input record that fields reach, the most bytes of a block of them, both again for the output, and how long the key is.
fn sizes(rt: &HostRuntime, asked: Asked) {
    let input = asked.input;
    let output = asked.output;
    line(
        rt,
        "records ",
        &[
            terms::record_length(input),
            terms::block_length(input),
            terms::record_length(output),
            terms::block_length(output),
            asked.key,
        ],
    );
}

// A field, by its number, from 1: its card, 0 for a copy, 1 for a pack or 2 for an unpack, the first input byte, counted through key and data, how many, the first output
// byte, and how many.
fn field(rt: &HostRuntime, deck: &[u8], number: usize, f: Field)
    requires { 1 ≤ number }
{
    let kind = f.kind;
    line(
        rt,
        "field ",
        &[
            number,
            cards::field_card(deck, number - 1),
            terms::kind_number(kind) as usize,
            f.r,
            f.input,
            f.t,
            f.output,
        ],
    );
}

fn all_fields(rt: &HostRuntime, deck: &[u8], fields: &[u16]) {
    for k in 0..fields.len() / 5 {
        field(rt, deck, k + 1, rows::field_at(fields, k));
    }
}

// The last field that reads a lost half. It is looked for only where there is one, since that takes a walk over the fields: of a half that is not lost none is told, and
// no field reads one that is lost since it is never read (1).
fn lost_reader(fields: &[u16], halves: &[u8; 8192], h: usize) -> Option<usize>
    requires { RowInside fields.now 4096 4096 }
{
    if h < 8192 && halves[h] > 1 {
        return losses::last_reader(fields, h);
    }
    None
}

// Each run of lost halves: the first and the last, why (1 never read, 2 dropped by a short field, 3 covered later), and the last field that reads them, or 0. A run goes on
// as long as its halves are lost for one reason and the same field is the last that reads them.
fn lost_runs(rt: &HostRuntime, fields: &[u16], halves: &[u8; 8192], many: usize)
    requires row_inside { RowInside fields.now 4096 4096 }
    requires many_bound { many ≤ 8192 }
{
    let mut first = 0;
    let mut reader = lost_reader(fields, halves, 0);
    for h in 0..many {
        let next = lost_reader(fields, halves, h + 1);
        if h + 1 < many && halves[h] == halves[h + 1] && reader == next {
            continue;
        }
        if halves[h] > 0 {
            let why = usize::from(halves[h]);
            line(rt, "lost ", &[first, h, why, reader.unwrap_or(0)]);
        }
        first = h + 1;
        reader = next;
    }
}

fn all_losses(rt: &HostRuntime, asked: Asked, fields: &[u16])
    requires { PlanFair asked fields.now }
{
    let many = 2 * terms::record_length(asked.input);
    let halves = losses::losses(asked, fields);
    lost_runs(rt, fields, &halves, many);
}

// What becomes of the tail: 0 there is none, 1 it is carried, 2 it is lost.
fn tail(rt: &HostRuntime, asked: Asked)
    requires { record_length (size_of asked.input) ≤ 4096 }
{
    let becomes = if losses::is_tail_lost(asked) {
        2
    } else if asked.cv > 0 {
        1
    } else {
        0
    };
    line(rt, "tail ", &[becomes]);
}

// Each run of output bytes: the first and the last, from 1, and the field that writes them last, or 0 for blanks. That field is looked for once for each byte.
fn all_written(rt: &HostRuntime, fields: &[u16], width: usize)
    requires row_inside { RowInside fields.now 4096 4096 }
    requires width_bound { width ≤ 4096 }
{
    let mut first = 1;
    let mut writer = losses::last_writer(fields, 1);
    for i in 1..=width {
        let next = losses::last_writer(fields, i + 1);
        if i < width && writer == next {
            continue;
        }
        line(rt, "output ", &[first, i, writer.unwrap_or(0)]);
        first = i + 1;
        writer = next;
    }
}

pub(crate) fn print(rt: &HostRuntime, deck: &[u8], asked: Asked, fields: &[u16])
    requires { PlanFair asked fields.now }
{
    let mode = asked.mode;
    if !terms::selects(mode) {
        return;
    }
    sizes(rt, asked);
    all_fields(rt, deck, fields);
    all_losses(rt, asked, fields);
    tail(rt, asked);
    let output = asked.output;
    all_written(rt, fields, terms::record_length(output));
}
