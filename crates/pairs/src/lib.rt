// The records of two reels in pairs, one after the other: the first that disagrees or lacks a partner. Document 02, order 7; not in FS, where no record is in a
// block by itself. No record of ours is built: the fields are written over a copy of their bytes, and where that changes nothing the two agree.
#![tactic(auto)]

ghost use Rattle.std.specs.Prelude.{◌≤◌, length};
ghost use Rattle.rows.specs.Flat.{Fielded};
ghost use Rattle.walks.specs.Promise.{Standing};
ghost use Rattle.pairs.specs.Promise.{WrittenOver, SelectingPair, Comparable, AgreesAs, Lacks, BothRead, ApartAt};

use pieces::Form;
use terms::Task;
use walks::Walk;

// Whether the fields, written over a copy of their bytes, change nothing: then theirs has the byte of ours at every position that a field writes.
fn written_over(fields: &[u16], record: &[u8], theirs: &[u8], room: &mut [u8]) -> bool
    requires fielded { Fielded fields.now (length «record».now) (length theirs.now) }
    requires theirs_len_bound { (length theirs.now ≤ 65536) × (length theirs.now ≤ length room.old) }
    ensures { WrittenOver fields.now «record».now theirs.now result }
{
    let m = theirs.len();
    copies::copy(theirs, room);
    records::put_fields(fields, record, &mut room[..m]);
    check::same(&room[..m], theirs)
}

// In TRF: the lengths, the positions that a field writes, and the tail.
fn agree_selected(task: Task, fields: &[u16], record: &[u8], theirs: &[u8], room: &mut [u8]) -> bool
    requires { SelectingPair task fields.now «record».now (length room.old) }
    ensures { AgreesAs task fields.now «record».now theirs.now result }
{
    let m = task.width;
    let n = task.n;
    if theirs.len() != tasks::output_length(task, record.len()) {
        return false;
    }
    if !written_over(fields, record, &theirs[..m], room) {
        return false;
    }
    if task.carries {
        return check::same(&record[n..], &theirs[m..]);
    }
    true
}

// Whether a record of theirs agrees with the output of a record of ours. TR carries records unchanged.
fn agree(task: Task, fields: &[u16], record: &[u8], theirs: &[u8], room: &mut [u8]) -> bool
    requires { Comparable task fields.now «record».now (length room.old) }
    ensures { AgreesAs task fields.now «record».now theirs.now result }
{
    if terms::selects(task.mode) {
        agree_selected(task, fields, record, theirs, room)
    } else {
        check::same(record, theirs)
    }
}

// Where ours has no further record: the next one of theirs lacks a partner, or there is none.
fn lacking(form: Form, theirs: &[u8], v: Walk, number: usize) -> Option<usize>
    requires { Standing form theirs.now v }
    ensures { Lacks form theirs.now v number result }
{
    walks::record(form, theirs, v)?;
    Some(number)
}

// The number, from 1 in the output, of the first record that disagrees or lacks a partner, if one does: both reels are walked in step.
pub fn first_apart(task: Task, fields: &[u16], ours: &[u8], theirs: &[u8]) -> Option<usize>
    requires { BothRead task fields.now ours.now theirs.now }
    ensures { ApartAt task fields.now ours.now theirs.now result }
{
    let form = tasks::form_of(task);
    let under = tasks::form_under(task);
    let mut room = [0u8; 4096];
    let mut w = walks::taken(form, ours, task.first);
    let mut v = walks::taken(under, theirs, 1);
    let mut number = 1;
    while let Some(mine) = walks::record(form, ours, w) {
        let Some(other) = walks::record(under, theirs, v) else {
            return Some(number);
        };
        let record = &ours[mine.start..mine.start + mine.length];
        let like = &theirs[other.start..other.start + other.length];
        if !agree(task, fields, record, like, &mut room) {
            return Some(number);
        }
        w = mine.next;
        v = other.next;
        number += 1;
    }
    lacking(under, theirs, v, number)
}
