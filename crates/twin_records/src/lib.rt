// The two records that are shown of a plan that loses, from the lowest values of its halves (document 02, order 3).
#![tactic(auto)]

ghost use Rattle.std.specs.Prelude.{◌≡◌, ◌+◌, ◌*◌, ◌≤◌, ◌<◌, length};
ghost use Rattle.rules.specs.Halves.{bytes};
ghost use Rattle.rules.specs.Twins.{listed};
ghost use Rattle.twin_records.specs.Promise.{raised_in, Values, needed_for, twin_records, WrittenInto};

// Half i of a record: its lowest value, or the next where it is half h.
#[tactic(auto, unfolding(crate::specs::Promise::raised_in))]
fn value(values: &[u8; 8192], h: usize, i: usize) -> u8
    requires { Values values.now h (i + 1) }
    ensures { (result ≡ raised_in values.now h i) × (result < 16) }
{
    if i == h {
        return values[i] + 1;
    }
    values[i]
}

// Writes a record into all of a part: each half has its lowest value, but half h the next.
fn put_record(values: &[u8; 8192], h: usize, part: &mut [u8])
    requires { Values values.now h (2 * length part.old) }
    ensures { part.new ≡ bytes (listed (raised_in values.now h) 0 (2 * length part.old)) }
{
    for (i, byte) in part.iter_mut().enumerate() {
        *byte = 16 * value(values, h, 2 * i) + value(values, h, 2 * i + 1);
    }
}

// How many bytes both records have: for the tail, whose lost place is 2n, one more.
#[tactic(auto, unfolding(crate::specs::Promise::needed_for))]
pub fn needed(n: usize, lost: usize) -> usize
    requires { n ≤ 4096 }
    ensures { result ≡ needed_for n lost }
{
    if lost == 2 * n {
        return 2 * n + 1;
    }
    2 * n
}

// Writes both records, from one array of values.
#[tactic(auto, using(crate::proofs::RecordLaws::needed_least), unfolding(crate::specs::Promise::needed_for))]
pub fn put_twins(values: &[u8; 8192], n: usize, lost: usize, out: &mut [u8])
    requires n_bound { (n ≤ 4096) × (needed_for n lost ≤ length out.old) }
    requires values { Values values.now lost (2 * n) }
    ensures { WrittenInto (twin_records values.now n lost) out.old out.new }
{
    let end = 2 * n;
    put_record(values, end, &mut out[..n]);
    put_record(values, lost, &mut out[n..end]);
    if lost == end {
        out[end] = 0;
    }
}
