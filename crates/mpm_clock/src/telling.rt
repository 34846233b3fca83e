ghost use Rattle.std.specs.Prelude.{◌≡◌, ◌∷◌, [], ◌++◌};
ghost use Rattle.mpm_base.specs.Calls.{answering};
ghost use Rattle.mpm_clock.specs.Times.{IsTime};
ghost use Rattle.mpm_clock.specs.PackedDecimal.{packed as packed_decimal, stamp as stamp_of};

use crate::moment::Moment;
use crate::packed_decimal::{packed, stamp};
use mpm_base::Reply;

/// Tells the date, the hour and the minute at an address, and the second as the value. (MP/M II Programmer's Guide, "Function
/// 105: Get Date and Time".)
#[cold]
#[inline(never)]
pub fn tell_date(now: Moment, at: u16, reply: &mut Reply)
    requires { IsTime now }
    ensures { reply.new ≡ record (answering (packed_decimal now.second)) { at = at; bytes = stamp_of now } }
{
    reply.answer_with(u16::from(packed(now.second)), at, &stamp(now));
}

/// Tells the date and the time at an address. (MP/M II Programmer's Guide, "Function 155: Get Date and Time".)
#[cold]
#[inline(never)]
pub fn tell_time(now: Moment, at: u16, reply: &mut Reply)
    requires { IsTime now }
    ensures { reply.new ≡ record (answering 0) { at = at; bytes = stamp_of now ++ packed_decimal now.second ∷ [] } }
{
    let [low, high, hour, minute] = stamp(now);
    reply.answer_with(0, at, &[low, high, hour, minute, packed(now.second)]);
}
