// A byte as people are shown it: two hexadecimal digits.
#![tactic(auto)]

ghost use Rattle.std.specs.Prelude.{◌≡◌, ◌%◌};
ghost use Rattle.rules.specs.Base.{digit_of};
ghost use Rattle.hexadecimal.specs.Promise.{HexadecimalDigit, ShowsByte};

// The digit of a byte's low half.
fn digit(byte: u8) -> u8
    ensures { HexadecimalDigit result × (digit_of result ≡ byte % 16) }
{
    let half = byte % 16;
    if half < 10 {
        b'0' + half
    } else {
        b'A' + (half - 10)
    }
}

// The digits of a byte's halves, the high one first.
pub fn hex(byte: u8) -> [u8; 2]
    ensures { ShowsByte byte result }
{
    [digit(byte / 16), digit(byte)]
}
