// The mode of a file as digits in octal give it.

// What is no mode.
#[derive(Clone, Copy)]
pub(crate) struct NoMode;

// The mode with one digit more behind it. A mode has at most 12 bits.
fn with(mode: u32, digit: u8) -> Result<u32, NoMode> {
    match digit {
        b'0'..=b'7' if mode < 512 => Ok(8 * mode + u32::from(digit - b'0')),
        _ => Err(NoMode),
    }
}

// No digit asks for no mode.
pub(crate) fn read(digits: &[u8]) -> Result<Option<u32>, NoMode> {
    if digits.is_empty() {
        return Ok(None);
    }
    let mut mode = 0;
    for digit in digits {
        mode = with(mode, *digit)?;
    }
    Ok(Some(mode))
}
