// The refusals of document 01's table and of the waits call, each with its number.
use std::error::Error;
use std::fmt;

// Why an index, a question or a list of times is refused.
#[derive(Clone, Copy, Debug, PartialEq, Eq)]
pub enum Refusal {
    // 1: the index has fewer than 4 bytes.
    TooShort,
    // 2: its version is not 1.
    OtherVersion,
    // 3: its table of contents is wrong.
    WrongContents,
    // 4: its length is not what its table of contents says.
    WrongLength,
    // 5: a list is wrong by itself.
    WrongLists,
    // 6: the lists do not fit together.
    WrongNesting,
    // 7: the question has too many bytes.
    TooLong,
    // 8: it does not follow the notation.
    NotFollowing,
    // 9: it has too many steps, or its brackets go too deep.
    TooLarge,
    // 20: a start or an end in the index has no time.
    NoEntry,
    // 21: the times descend.
    TimesDescend,
}

impl From<Refusal> for u32 {
    ghost use Rattle.std.specs.Prelude.{◌≡◌};
    ghost use Rattle.meaning.specs.Numbers.{number_of};

    ghost from_gives = { λ refusal number. number ≡ number_of refusal };

    fn from(refusal: Refusal) -> u32 {
        match refusal {
            Refusal::TooShort => 1,
            Refusal::OtherVersion => 2,
            Refusal::WrongContents => 3,
            Refusal::WrongLength => 4,
            Refusal::WrongLists => 5,
            Refusal::WrongNesting => 6,
            Refusal::TooLong => 7,
            Refusal::NotFollowing => 8,
            Refusal::TooLarge => 9,
            Refusal::NoEntry => 20,
            Refusal::TimesDescend => 21,
        }
    }
}

// A refusal is written as its number, as all who read one expect.
impl fmt::Display for Refusal {
    fn fmt<W: fmt::Write>(&self, f: &mut fmt::Formatter<W>) -> fmt::Result {
        write!(f, "{}", u32::from(*self))
    }
}

impl Error for Refusal {}
