// Refusals: why a call gives no answer, with the numbers of document 01's table.
ghost use Rattle.std.specs.Prelude.{◌≡◌, ◌<◌};
ghost use Rattle.rules.specs.Bounds.{max_slots};
ghost use Rattle.table.specs.Refusal.{number_of, number, place};

// Why a call is refused, in the order of the table of refusals. 12 is retired: two overlap sets can't tie.
#[derive(Clone, Copy, Debug, PartialEq, Eq, Hash)]
pub enum Reason {
    ShortFile,
    WrongMark,
    WrongVersion,
    WrongElements,
    WrongRows,
    WrongLength,
    WrongEnds,
    WrongPeriod,
    WrongCost,
    NoCut,
    LongHyperperiod,
    LightRow,
    OverBound,
    OffState,
    HasFinished,
    ShortOutput,
    PastedRow,
    BadWord,
    LostLabel,
    OurLimit,
    TheirLimit,
    WrongLimit,
    NoFreePlace,
    NoRowThere,
    WrongWay,
    WrongRelay,
    ManyRows,
    WrongElement,
    WrongList,
    WrongEntry,
    NoRow,
}

impl Reason {
    // Its number in that table.
    pub fn number(self) -> u32
        ensures { result ≡ number_of self }
    {
        match self {
            Reason::ShortFile => 1,
            Reason::WrongMark => 2,
            Reason::WrongVersion => 3,
            Reason::WrongElements => 4,
            Reason::WrongRows => 5,
            Reason::WrongLength => 6,
            Reason::WrongEnds => 7,
            Reason::WrongPeriod => 8,
            Reason::WrongCost => 9,
            Reason::NoCut => 10,
            Reason::LongHyperperiod => 11,
            Reason::LightRow => 13,
            Reason::OverBound => 14,
            Reason::OffState => 15,
            Reason::HasFinished => 16,
            Reason::ShortOutput => 17,
            Reason::PastedRow => 18,
            Reason::BadWord => 19,
            Reason::LostLabel => 20,
            Reason::OurLimit => 21,
            Reason::TheirLimit => 22,
            Reason::WrongLimit => 23,
            Reason::NoFreePlace => 24,
            Reason::NoRowThere => 25,
            Reason::WrongWay => 26,
            Reason::WrongRelay => 27,
            Reason::ManyRows => 28,
            Reason::WrongElement => 29,
            Reason::WrongList => 30,
            Reason::WrongEntry => 31,
            Reason::NoRow => 32,
        }
    }
}

// What a refused call answers: why, and the row, set, ring or slot to which that applies; place 0 where it applies to none.
#[derive(Clone, Copy, Debug, PartialEq, Eq, Hash)]
pub struct Refusal {
    pub reason: Reason,
    pub place: u32,
}

impl Refusal {
    // what is told where there is none: its number, and the place where one applies to none
    pub const DONE: u32 = 0;

    pub const NOWHERE: u32 = 0;

    pub fn at(reason: Reason, place: usize) -> Refusal
        requires { place < max_slots }
        ensures { (result.reason ≡ reason) × (result.place ≡ place) }
    {
        Refusal {
            reason,
            place: place as u32,
        }
    }
}

impl From<Reason> for Refusal {
    ghost from_gives = { λ reason r. r ≡ record { reason = reason; place = 0 } };

    fn from(reason: Reason) -> Refusal {
        Refusal {
            reason,
            place: Refusal::NOWHERE,
        }
    }
}

// The number that C and the programs are told: that of the refusal, 0 where there is none.
pub fn number<T>(answer: &Result<T, Refusal>) -> u32
    ensures { result ≡ number answer.now }
{
    match answer {
        Ok(_) => Refusal::DONE,
        Err(refusal) => refusal.reason.number(),
    }
}

// And the place.
pub fn place<T>(answer: &Result<T, Refusal>) -> u32
    ensures { result ≡ place answer.now }
{
    match answer {
        Ok(_) => Refusal::NOWHERE,
        Err(refusal) => refusal.place,
    }
}
