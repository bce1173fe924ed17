// Pack and unpack fields of 1 to 16 bytes (document 01, "Half bytes").
#![tactic(auto)]

ghost use Rattle.std.specs.Prelude.{◌≡◌, ℕ, ◌+◌, ◌*◌, ◌-◌, ◌/◌, ◌%◌, ◌≤◌, ◌<◌, length, get_or};
ghost use Rattle.rules.specs.Base.{within};
ghost use Rattle.rules.specs.Halves.{halves, pack_bytes, unpack_bytes};
ghost use Rattle.rules.specs.Lent.{zone_f};
ghost use Rattle.halves.specs.Promise.{both_allowed, packed_into, unpacked_into};

use terms::ZONE;

// Whether a field that packs or unpacks may have this size.
fn allowed(size: usize) -> bool
    ensures { result ≡ within 1 16 size }
{
    (1..=16).contains(&size)
}

// Whether n bytes may become m.
fn both_allowed(n: usize, m: usize) -> bool
    ensures { result ≡ both_allowed n m }
{
    allowed(n) && allowed(m)
}

// Two halves as a byte.
fn pair(high: u8, low: u8) -> u8
    requires { (high < 16) × (low < 16) }
    ensures { result ≡ 16 * high + low }
{
    high * 16 + low
}

// A byte whose halves have changed places.
fn turned(byte: u8) -> u8
    ensures { result ≡ 16 * (byte % 16) + byte / 16 }
{
    byte % 16 * 16 + byte / 16
}

// Byte i of src packed into m bytes. Going left from the last byte, on both sides, two digits make one byte.
fn pack_at(src: &[u8], m: usize, i: usize) -> u8
    requires { (1 ≤ length src.now) × (i < m) × (m ≤ 16) }
    ensures { result ≡ get_or (pack_bytes m src.now) i 0 }
{
    let n = src.len();
    // So many halves of the field stand to its right; but for the sign they are digits.
    let right = 2 * (m - 1 - i);
    if right == 0 {
        return turned(src[n - 1]);
    }
    if right < n {
        return pair(src[n - 1 - right] % 16, src[n - right] % 16);
    }
    // The first digit may be left over. Past it the fill is 0.
    if right == n {
        return pair(0, src[0] % 16);
    }
    0
}

// Writes the bytes before an end from the right to the left, as document 01 does, each by its place.
fn put_left<F: Fn(usize) -> u8>(byte: F, end: usize, dst: &mut [u8])
    requires end_in_bounds { end ≤ length dst.old }
    requires askable { (i : ℕ) → i < end → F.pre byte i }
    ensures written { (i : ℕ) → i < end → F.post byte i (get_or dst.new i 0) }
    ensures stays { (i : ℕ) → end ≤ i → get_or dst.new i 0 ≡ get_or dst.old i 0 }
{
    for i in (0..end).rev() {
        dst[i] = byte(i);
    }
}

// Packs src into dst, where both sizes are allowed.
pub fn pack(src: &[u8], dst: &mut [u8])
    ensures { dst.new ≡ packed_into src.now dst.old }
{
    let m = dst.len();
    if both_allowed(src.len(), m) {
        put_left(|i| pack_at(src, m, i), m, dst);
    }
}

// The half of src at a place.
fn half_at(src: &[u8], place: usize) -> u8
    requires { place < 2 * length src.now }
    ensures { (result ≡ get_or (halves src.now) place 0) × (result < 16) }
{
    let byte = src[place / 2];
    if place % 2 == 0 {
        return byte / 16;
    }
    byte % 16
}

// Byte i of src unpacked into m bytes. Going left from the last byte, on both sides, one half makes one byte.
fn unpack_at(src: &[u8], m: usize, i: usize) -> u8
    requires { (1 ≤ length src.now) × (length src.now ≤ 16) × (i < m) }
    ensures { result ≡ get_or (unpack_bytes zone_f m src.now) i 0 }
{
    let last = src.len() - 1;
    let before = m - 1 - i;
    if before == 0 {
        return turned(src[last]);
    }
    // Past the first half the fill is F0.
    if 2 * last < before {
        return ZONE * 16;
    }
    ZONE * 16 + half_at(src, 2 * last - before)
}

// The last byte turned, and going left from it two bytes for each byte of src, while dst has room for both: each byte is read once. Answers from which place on
// the field stands.
fn put_pairs(src: &[u8], dst: &mut [u8]) -> usize
    requires in_bounds { (1 ≤ length src.now) × (length src.now ≤ 16) }
    requires in_bounds_2 { (1 ≤ length dst.old) × (length dst.old ≤ 16) }
    ensures place { result ≤ length dst.old }
    ensures from_there { (i : ℕ) → result ≤ i → i < length dst.old → get_or dst.new i 0 ≡ get_or (unpack_bytes zone_f (length dst.old) src.now) i 0 }
{
    let last = src.len() - 1;
    let end = dst.len() - 1;
    dst[end] = turned(src[last]);
    let pairs = last.min(end / 2);
    for done in 0..pairs {
        let byte = src[last - 1 - done];
        dst[end - 1 - 2 * done] = ZONE * 16 + byte % 16;
        dst[end - 2 - 2 * done] = ZONE * 16 + byte / 16;
    }
    end - 2 * pairs
}

// Unpacks src into dst, where both sizes are allowed.
pub fn unpack(src: &[u8], dst: &mut [u8])
    ensures { dst.new ≡ unpacked_into src.now dst.old }
{
    let m = dst.len();
    if both_allowed(src.len(), m) {
        let at = put_pairs(src, dst);
        put_left(|i| unpack_at(src, m, i), at, dst);
    }
}
