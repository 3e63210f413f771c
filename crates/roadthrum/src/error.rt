// Why the program ends without all evidence.
use meaning::Refusal;
use std::{fmt, io};

#[derive(Debug, Drop)]
pub enum Error {
    // A file can't be read, or `day.idx` is too long.
    Unreadable,
    // The evidence call refuses the day or the question.
    Refused(Refusal),
    // Standard output takes no more.
    Unprintable(io::Error),
}

impl Error {
    // The number of the program's own refusal.
    const UNREADABLE: u32 = 11;
}

impl From<Refusal> for Error {
    ghost use Rattle.std.specs.Prelude.{◌≡◌};
    ghost use Rattle.roadthrum.specs.declared.error.Error.TheVariants.{Refused};

    ghost from_gives = { λ refusal error. error ≡ Refused refusal };

    fn from(refusal: Refusal) -> Error {
        Error::Refused(refusal)
    }
}

impl From<io::Error> for Error {
    ghost use Rattle.std.specs.Prelude.{◌≡◌};
    ghost use Rattle.roadthrum.specs.declared.error.Error.TheVariants.{Unprintable};

    ghost from_gives = { λ cause error. error ≡ Unprintable cause };

    fn from(error: io::Error) -> Error {
        Error::Unprintable(error)
    }
}

// What the program prints in place of evidence, or why it can't print.
impl fmt::Display for Error {
    fn fmt<W: fmt::Write>(&self, f: &mut fmt::Formatter<W>) -> fmt::Result {
        match self {
            Error::Unreadable => write!(f, "refused {}", Error::UNREADABLE),
            Error::Refused(refusal) => write!(f, "refused {refusal}"),
            Error::Unprintable(error) => write!(f, "{error}"),
        }
    }
}

impl std::error::Error for Error {}
