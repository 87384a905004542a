ghost use Rattle.whole.specs.Tells.{Tells};
ghost use Rattle.track.specs.Numbers.{IsMinute};

// A minute of the day, both ends allowed.
#[derive(Clone, Copy, Debug, Default, PartialEq, Eq)]
pub struct Minute {
    pub at: i32,
}

impl Minute {
    pub const FIRST: Minute = Minute { at: 0 };

    pub const LAST: Minute = Minute { at: 1440 };
}

pub fn is_minute(m: i32) -> bool
    ensures { Tells result (IsMinute m) }
{
    (Minute::FIRST.at..=Minute::LAST.at).contains(&m)
}
