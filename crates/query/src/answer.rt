ghost use Rattle.std.specs.Prelude.{◌≡◌, pos};
ghost use Rattle.query.specs.Queried.{answer_number, answer_hits};
ghost use Rattle.query.specs.declared.answer.NotListed.TheVariants.{Refused};

use track::refusal::Refusal;

// How many cells meet a query, and how many nodes it opens.
#[derive(Clone, Copy, Debug, PartialEq, Eq)]
pub struct Found {
    pub hits: usize,
    pub opened: usize,
}

// Why the cells that meet a query are not listed: they are so many, and the list is too short for them, or the query is refused.
#[derive(Clone, Copy, Debug, PartialEq, Eq)]
pub enum NotListed {
    TooMany(usize),
    Refused(Refusal),
}

impl From<Refusal> for NotListed {
    ghost from_gives = { λ why r. r ≡ Refused why };

    fn from(why: Refusal) -> NotListed {
        NotListed::Refused(why)
    }
}

impl NotListed {
    pub fn number(self) -> i32
        ensures { result ≡ pos (answer_number (Err self)) }
    {
        match self {
            NotListed::TooMany(_) => Refusal::ShortList.number(),
            NotListed::Refused(why) => why.number(),
        }
    }

    // How many cells meet the query, where they are too many.
    pub fn hits(self) -> usize
        ensures { result ≡ answer_hits (Err self) }
    {
        match self {
            NotListed::TooMany(n) => n,
            NotListed::Refused(_) => 0,
        }
    }
}
