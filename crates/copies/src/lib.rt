// Copies bytes.
#![tactic(auto)]

ghost use Rattle.std.specs.Prelude.{◌≡◌, ◌≤◌, length};
ghost use Rattle.rules.specs.Halves.{over};

// Copies byte by byte: for a few bytes this is less work than a call. With copy_from_slice for all, runs over the shortest records took a fifth longer.
fn short(src: &[u8], dst: &mut [u8])
    requires { length src.now ≤ length dst.old }
    ensures { dst.new ≡ over 0 src.now dst.old }
{
    for i in 0..src.len() {
        dst[i] = src[i];
    }
}

// Copies src, of at most 65,536 bytes, into the front of dst.
pub fn copy(src: &[u8], dst: &mut [u8])
    requires { (length src.now ≤ 65536) × (length src.now ≤ length dst.old) }
    ensures { dst.new ≡ over 0 src.now dst.old }
{
    if src.len() < 8 {
        short(src, dst);
        return;
    }
    dst[..src.len()].copy_from_slice(src);
}
