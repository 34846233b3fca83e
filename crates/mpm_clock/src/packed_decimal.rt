ghost use Rattle.std.specs.Prelude.{◌≡◌, ◌<◌, ⊤, true, false, MatchOption};
ghost use Rattle.mpm_clock.specs.Times.{IsTime};
ghost use Rattle.mpm_clock.specs.PackedDecimal.{packed as packed_decimal, unpacked, is_packed_below, names_time, named_moment, stamp as stamp_of};

use crate::moment::Moment;
use mpm_base::Call;

/// The moment that a call names by the first four bytes that it read: a date, low byte first, and an hour and a minute in
/// packed decimal. None where they are no time of the day. (MP/M II Programmer's Guide, "Function
/// 104: Set Date and Time".)
#[tactic(auto, unfolding(crate::specs::PackedDecimal::names_time, crate::specs::PackedDecimal::named_moment))]
pub fn moment_in(call: &Call) -> Option<Moment>
    ensures named { MatchOption result (names_time call.now ≡ false) (λ moment. (names_time call.now ≡ true) × (moment ≡ named_moment call.now)) }
    ensures time { MatchOption result ⊤ (λ moment. IsTime moment) }
{
    let hour = number_below(call.byte(2), 24)?;
    let minute = number_below(call.byte(3), 60)?;
    Some(Moment {
        date: call.word(0),
        hour,
        minute,
        second: 0,
    })
}

/// The number of a byte of two decimal digits, if it is below a limit.
fn number_below(byte: u8, limit: u8) -> Option<u8>
    ensures { MatchOption result (is_packed_below limit byte ≡ false) (λ n. (is_packed_below limit byte ≡ true) × ((n ≡ unpacked byte) × (n < limit))) }
{
    let tens = byte / 16;
    let ones = byte % 16;
    if 10 <= tens || 10 <= ones {
        return None;
    }
    let number = 10 * tens + ones;
    if number < limit { Some(number) } else { None }
}

/// A number below 100 in packed decimal: its tens in the high half, its ones in the low half.
pub fn packed(number: u8) -> u8
    requires { number < 100 }
    ensures { result ≡ packed_decimal number }
{
    16 * (number / 10) + number % 10
}

/// A date, low byte first, an hour and a minute in packed decimal. (MP/M II Programmer's Guide, "Function 105: Get
/// Date and Time".)
pub fn stamp(moment: Moment) -> [u8; 4]
    requires { IsTime moment }
    ensures { result ≡ stamp_of moment }
{
    [
        (moment.date % 256) as u8,
        (moment.date / 256) as u8,
        packed(moment.hour),
        packed(moment.minute),
    ]
}
