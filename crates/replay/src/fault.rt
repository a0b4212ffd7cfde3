// What ends a replay early, and its message.
use session::HexError;
use std::alloc::AllocError;
use std::{fmt, io};

// Both count from 1; columns are bytes.
#[derive(Clone, Copy, Debug, PartialEq, Eq)]
pub struct Place {
    pub line: u64,
    pub column: u64,
}

impl Place {
    fn at_byte(line: u64, at: usize) -> Place {
        let column = (at as u64).saturating_add(1);
        Place { line, column }
    }
}

impl fmt::Display for Place {
    fn fmt<W: fmt::Write>(&self, f: &mut fmt::Formatter<W>) -> fmt::Result {
        let Place { line, column } = self;
        write!(f, "{line}:{column}")
    }
}

// Why a session is not played to its end.
#[derive(Debug, Drop)]
pub enum Stop {
    Unreadable(io::Error),
    // There is no memory, or what is printed cannot be written.
    System(io::Error),
    NotADigit(Place),
    MissingDigit(Place),
    Endless { line: u64 },
    LongRow { line: u64 },
}

impl Stop {
    pub fn in_line(line: u64, error: HexError) -> Stop {
        match error {
            HexError::NotADigit(at) => Stop::NotADigit(Place::at_byte(line, at)),
            HexError::MissingDigit(at) => Stop::MissingDigit(Place::at_byte(line, at)),
            HexError::OutOfMemory => Stop::System(io::Error::from(AllocError)),
        }
    }

    // The message for a session of that name, which no variant has: so it is no derive's.
    fn describe<W: fmt::Write>(&self, f: &mut fmt::Formatter<W>, name: &str) -> fmt::Result {
        match self {
            Stop::Unreadable(error) => write!(f, "{name}: {error}"),
            Stop::System(error) => write!(f, "{error}"),
            Stop::NotADigit(place) => write!(f, "{name}:{place}: not a hex digit"),
            Stop::MissingDigit(place) => write!(f, "{name}:{place}: a hex digit is missing"),
            Stop::Endless { line } => write!(f, "{name}:{line}: does not end"),
            Stop::LongRow { line } => write!(f, "{name}:{line}: shows more than a row"),
        }
    }
}

impl From<io::Error> for Stop {
    fn from(error: io::Error) -> Stop {
        Stop::System(error)
    }
}

#[derive(Debug, Drop)]
pub enum Fault {
    System(io::Error),
    File { name: String, stop: Stop },
    Input(Stop),
}

impl From<io::Error> for Fault {
    fn from(error: io::Error) -> Fault {
        Fault::System(error)
    }
}

impl fmt::Display for Fault {
    fn fmt<W: fmt::Write>(&self, f: &mut fmt::Formatter<W>) -> fmt::Result {
        match self {
            Fault::System(error) => write!(f, "{error}"),
            Fault::File { name, stop } => stop.describe(f, name.as_str()),
            Fault::Input(stop) => stop.describe(f, "<stdin>"),
        }
    }
}
