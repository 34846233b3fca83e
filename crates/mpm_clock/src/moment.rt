ghost use Rattle.std.specs.Prelude.{◌≡◌};
ghost use Rattle.mpm_clock.specs.Times.{IsTime, second_later};

/// A date and a time of day.
#[derive(Clone, Copy, Debug, PartialEq, Eq)]
pub struct Moment {
    /// The number of the day; day 1 is the first of January 1978.
    pub date: u16,
    /// 0 to 23.
    pub hour: u8,
    /// 0 to 59.
    pub minute: u8,
    /// 0 to 59.
    pub second: u8,
}

impl Moment {
    /// One second later. Midnight raises the date, up to 65,535.
    #[tactic(auto, using(crate::proofs::ClockLaws::time_later), unfolding(crate::specs::Times::second_later))]
    pub(crate) fn later(self) -> Moment
        requires { IsTime self }
        ensures moment { result ≡ second_later self }
        ensures time { IsTime result }
    {
        if self.second < 59 {
            return Moment {
                second: self.second + 1,
                ..self
            };
        }
        if self.minute < 59 {
            return Moment {
                minute: self.minute + 1,
                second: 0,
                ..self
            };
        }
        if self.hour < 23 {
            return Moment {
                hour: self.hour + 1,
                minute: 0,
                second: 0,
                ..self
            };
        }
        Moment {
            date: self.date.saturating_add(1),
            hour: 0,
            minute: 0,
            second: 0,
        }
    }
}
