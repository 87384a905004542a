ghost use Rattle.std.specs.Prelude.{◌≡◌, pos};
ghost use Rattle.track.specs.Refusals.{number, number_of, first_given};

// Why a call is refused. A definition gives each its number.
#[derive(Clone, Copy, Debug, PartialEq, Eq)]
pub enum Refusal {
    NotSound = 1,
    BadCapacity = 2,
    ShortTable = 3,
    OutOfRange = 4,
    BeforeClock = 5,
    ExpiresFirst = 6,
    Backward = 7,
    NotLive = 8,
    Full = 9,
    ShortList = 10,
    BadHeader = 11,
    BadRecord = 12,
    ShortBytes = 13,
    NoTrack = 14,
}

impl Refusal {
    pub fn number(self) -> i32
        ensures { result ≡ pos (number self) }
    {
        self as i32
    }

    // The number of the one that is given where both apply: the lesser.
    #[tactic(auto, using(crate::specs::Laws::Refusals::first_is_least))]
    pub fn first(self, other: Refusal) -> i32
        ensures { result ≡ pos (first_given (number self) (number other)) }
    {
        self.number().min(other.number())
    }
}

// The number of a call's answer: 0 where it is not refused.
pub fn number_of<T: Copy>(answer: Result<T, Refusal>) -> i32
    ensures { result ≡ pos (number_of answer) }
{
    match answer {
        Ok(_) => 0,
        Err(why) => why.number(),
    }
}
