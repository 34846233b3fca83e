ghost use Rattle.std.specs.Prelude.{◌≡◌, ◌+◌, pos, ◌≤ℤ◌};
ghost use Rattle.jiff_core.specs.Calendar.{day_count};
ghost use Rattle.mpm_sched.specs.Dates.{date_of as date_number_of};
ghost use Rattle.mpm_sched.specs.Forms.{AreOfForm};

use jiff::civil::{Date, date};

/// The number of a date of the years 1978 to 2077, of which 1 is 1 January 1978; None where the calendar has no such day.
#[tactic(auto, unfolding(crate::specs::Dates::date_of))]
pub(crate) fn date_of(year: u16, month: u8, day: u8) -> Option<u16>
    requires { AreOfForm year month day }
    ensures { result ≡ date_number_of year month day }
{
    match Date::new(year as i16, month as i8, day as i8) {
        Ok(civil) => Some(number_of(civil)),
        Err(_) => None,
    }
}

/// The days from 31 December 1977 to a date of the years 1978 to 2077.
fn number_of(civil: Date) -> u16
    requires first { pos 1978 ≤ℤ civil.year }
    requires last { civil.year ≤ℤ pos 2077 }
    ensures { result + day_count (pos 1977) 12 31 ≡ day_count civil.year civil.month civil.day }
{
    (civil.duration_since(date(1977, 12, 31)).as_hours() / 24) as u16
}
