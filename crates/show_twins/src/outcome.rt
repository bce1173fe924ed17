// What the twins become: the output record of a run of the plan over the first of them alone.
ghost use Rattle.std.specs.Prelude.{◌≡◌};
ghost use Rattle.rows.specs.Fair.{PlanFair};
ghost use Rattle.show_twins.specs.First.{asked_from_first};

use crate::{blocks, hex, room};
use std::io::Print;
use terms::{Asked, Format};

// The plan, but that it takes the records from the first on.
fn from_first(asked: Asked) -> Asked
    ensures { result ≡ asked_from_first asked }
{
    Asked { first: 1, ..asked }
}

// Where the data of the first record begins in a reel of one block: behind the header, and in FV behind its words.
fn data_start(format: Format) -> usize {
    match format {
        Format::FV => 20,
        Format::FF | Format::FU | Format::FS => 12,
    }
}

// A run that is refused has no output, so that nothing is shown.
pub(crate) fn show(to: &impl Print, asked: Asked, fields: &[u16], record: &[u8])
    requires { PlanFair asked fields.now }
{
    let format = asked.format;
    let mut reel = io::large_buffer();
    let Some(reel) = blocks::reel(format, 1, record, b"", &mut reel) else {
        return;
    };
    let mut out = io::large_buffer();
    let ran = runs::run_plan(from_first(asked), fields, reel, &mut out);
    hex::single(
        to,
        room::behind(room::front(&out, ran.length), data_start(format)),
    );
}
