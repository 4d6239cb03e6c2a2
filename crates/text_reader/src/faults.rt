// What is refused of a text.
ghost use Rattle.std.specs.Prelude.{◌≡◌};
ghost use Rattle.text_reader.specs.Faults.{number_of, number, place};

use table::{Reason, Refusal};

// Why: a fault of the text, or what is refused of its table.
#[derive(Clone, Copy, Debug, PartialEq, Eq, Hash)]
pub enum Wrong {
    LongText,
    NoNumber,
    LargeNumber,
    NoHeading,
    MissingField,
    SpareField,
    Table(Reason),
}

impl Wrong {
    // Its number, in the table of refusals or past it.
    pub fn number(self) -> u32
        ensures { result ≡ number_of self }
    {
        match self {
            Wrong::LongText => 33,
            Wrong::NoNumber => 34,
            Wrong::LargeNumber => 35,
            Wrong::NoHeading => 36,
            Wrong::MissingField => 37,
            Wrong::SpareField => 38,
            Wrong::Table(reason) => reason.number(),
        }
    }
}

// Why, and the place of the text to which that applies.
#[derive(Clone, Copy, Debug, PartialEq, Eq, Hash)]
pub struct Fault {
    pub wrong: Wrong,
    pub place: usize,
}

// The number that is told: that of the fault, 0 where there is none.
pub fn number<T>(answer: &Result<T, Fault>) -> u32
    ensures { result ≡ number answer.now }
{
    match answer {
        Ok(_) => Refusal::DONE,
        Err(fault) => fault.wrong.number(),
    }
}

// And the place.
pub fn place<T>(answer: &Result<T, Fault>) -> usize
    ensures { result ≡ place answer.now }
{
    match answer {
        Ok(_) => 0,
        Err(fault) => fault.place,
    }
}
