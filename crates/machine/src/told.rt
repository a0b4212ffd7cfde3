// What a step tells, and why a command is refused.
ghost use Rattle.std.specs.Prelude.{◌≡◌, Some};
ghost use Rattle.machine.specs.Told.{refusal_number, refusal_text};

use std::error::Error;
use std::fmt;

// So many bytes of the lent row are shown; or none, and the command is done.
pub type Told = Result<Option<u64>, Refusal>;

#[derive(Clone, Copy, Debug, PartialEq, Eq)]
pub enum Refusal {
    // Lengths, kind or header out of their limits, or nothing to go on with.
    Misuse,
    NotACommand,
    NotKnown,
    // No such function, or nothing at the place.
    Missing,
    // A function has that name, or one is called so.
    NameTaken,
    // A use would belong to another binder, or another own name is called so.
    Captured,
    // What is there is not of the kind that is asked for.
    WrongKind,
    // The program would have more than 65,536 bytes.
    TooLarge,
    // There is no older program.
    NothingBefore,
}

impl From<Refusal> for u64 {
    ghost from_gives = { λ why number. number ≡ refusal_number why };

    fn from(why: Refusal) -> u64 {
        match why {
            Refusal::Misuse => 0,
            Refusal::NotACommand => 1,
            Refusal::NotKnown => 2,
            Refusal::Missing => 3,
            Refusal::NameTaken => 4,
            Refusal::Captured => 5,
            Refusal::WrongKind => 6,
            Refusal::TooLarge => 7,
            Refusal::NothingBefore => 9,
        }
    }
}

impl fmt::Display for Refusal {
    ghost output = { λ why. Some (refusal_text why) };

    fn fmt<W: fmt::Write>(&self, f: &mut fmt::Formatter<W>) -> fmt::Result {
        f.write_str(match self {
            Refusal::Misuse =>
                "lengths, kind or header are out of their limits, or there is nothing to go on with",
            Refusal::NotACommand => "these bytes are no command",
            Refusal::NotKnown => "this command is not known yet",
            Refusal::Missing => "there is no such function, parameter or place",
            Refusal::NameTaken => "the name is taken",
            Refusal::Captured => "what the program means would change",
            Refusal::WrongKind => "what is there is of the wrong kind, or protected",
            Refusal::TooLarge => "the program would be too large",
            Refusal::NothingBefore => "there is nothing to go back to",
        })
    }
}

impl Error for Refusal {}
