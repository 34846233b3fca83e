ghost use Rattle.std.specs.Prelude.{◌≡◌};
ghost use Rattle.mpm_script.specs.Numbers.{is_plain as is_plain_text, decimal_of, number_of, hex_digit as hex_digit_of, hex_byte as hex_byte_of, IsNumeral};

/// The number of decimal digits without sign and without a needless zero before them, where it is no greater than the
/// greatest; else None.
#[tactic(auto, unfolding(crate::specs::Numbers::number_of))]
pub fn number(digits: &[u8], greatest: u32) -> Option<u32>
    ensures { IsNumeral (number_of greatest digits.now) greatest result }
{
    if is_plain(digits) {
        decimal(digits, greatest)
    } else {
        None
    }
}

/// Whether a number has digits, and no needless zero before them.
#[tactic(auto, unfolding(crate::specs::Numbers::is_plain))]
fn is_plain(digits: &[u8]) -> bool
    ensures { result ≡ is_plain_text digits.now }
{
    match digits {
        [] => false,
        [_] => true,
        [first, ..] => *first != b'0',
    }
}

/// The number that decimal digits stand for, where all are digits and it is no greater than the greatest.
fn decimal(digits: &[u8], greatest: u32) -> Option<u32>
    ensures { IsNumeral (decimal_of greatest 0 digits.now) greatest result }
{
    let mut value = 0u64;
    for &byte in digits {
        if !byte.is_ascii_digit() {
            return None;
        }
        value = 10 * value + u64::from(byte - b'0');
        if value > u64::from(greatest) {
            return None;
        }
    }
    Some(value as u32)
}

/// The byte of two hexadecimal digits of either case.
pub fn hex_byte(high: u8, low: u8) -> Option<u8>
    ensures { result ≡ hex_byte_of high low }
{
    let high = hex_digit(high)?;
    let low = hex_digit(low)?;
    Some(16 * high + low)
}

/// The number of a hexadecimal digit of either case.
#[tactic(auto, unfolding(crate::specs::Numbers::hex_digit))]
fn hex_digit(digit: u8) -> Option<u8>
    ensures { IsNumeral (hex_digit_of digit) 15 result }
{
    match digit {
        b'0'..=b'9' => Some(digit - b'0'),
        b'A'..=b'F' => Some(digit - b'A' + 10),
        b'a'..=b'f' => Some(digit - b'a' + 10),
        _ => None,
    }
}
