// A line taken apart: words, numbers, and bytes written in hex.
ghost use Rattle.std.specs.Prelude.{◌≤◌, ◌<◌, length};

// What stands before the first such byte, and what stands behind it; nothing where there is none.
pub(crate) fn cut(s: &[u8], byte: u8) -> (&[u8], &[u8]) {
    match s.iter().position(|b| *b == byte) {
        Some(at) => (&s[..at], &s[at + 1..]),
        None => (s, &[]),
    }
}

// The number that decimal digits say; it grows no further than some millions. By hand: `str::parse` answers otherwise where other bytes stand among them.
pub(crate) fn number(word: &[u8]) -> usize {
    word.iter().fold(0, |value, byte| {
        if value < 1000000 {
            10 * value + usize::from(digit(*byte))
        } else {
            value
        }
    })
}

// The first so many bytes, or all where there are no more.
pub(crate) fn first(s: &[u8], count: usize) -> &[u8] {
    &s[..count.min(s.len())]
}

// The value of a hex digit; of another byte 0. By hand: small letters are other bytes here, and `char::to_digit` takes them.
fn digit(byte: u8) -> u8
    ensures { result < 16 }
{
    match byte {
        b'0'..=b'9' => byte - b'0',
        b'A'..=b'F' => byte - b'A' + 10,
        _ => 0,
    }
}

// The byte that two hex digits say.
fn byte(digits: &[u8]) -> u8 {
    match digits {
        [high, low, ..] => digit(*high) * 16 + digit(*low),
        _ => 0,
    }
}

// Puts so many times the same byte, as far as there is room, and answers how many.
fn put_same(byte: u8, times: usize, out: &mut [u8]) -> usize
    ensures { result ≤ length out.old }
{
    let end = times.min(out.len());
    out[..end].fill(byte);
    end
}

// Puts the bytes that pairs of hex digits say, as far as there is room, and answers how many.
fn put_pairs(digits: &[u8], out: &mut [u8]) -> usize
    ensures { result ≤ length out.old }
{
    for (place, pair) in out.iter_mut().zip(digits.chunks_exact(2)) {
        *place = byte(pair);
    }
    out.len().min(digits.len() / 2)
}

// Puts the bytes of one part.
fn put_part(part: &[u8], out: &mut [u8]) -> usize
    ensures { result ≤ length out.old }
{
    match part {
        [] => 0,
        [b'-', ..] => 0,
        [b'x', same @ ..] => {
            let (times, digits) = cut(same, b':');
            put_same(byte(digits), number(times), out)
        }
        _ => put_pairs(part, out),
    }
}

// Puts the bytes of all parts, as far as there is room, and answers them.
pub(crate) fn decode<'a>(s: &[u8], room: &'a mut [u8]) -> &'a [u8]
    ensures { length result.now ≤ length room.old }
{
    let mut done = 0;
    for part in s.split(|b| *b == b'+') {
        done += put_part(part, &mut room[done..]);
    }
    &room[..done]
}
