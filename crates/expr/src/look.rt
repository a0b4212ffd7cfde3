// Looking a name up among names of its own length, and the smaller of two numbers.
ghost use Rattle.std.specs.Prelude.{◌≡◌, ◌/◌, ◌<◌, length};
ghost use Rattle.language.specs.Bare.{how_near};
ghost use Rattle.expr.specs.Look.{cut, error_number, refusal, reply_of, LookSays, smaller};

use crate::bytes::same_bytes;

// Why no name is looked for.
#[derive(Clone, Copy, Debug, PartialEq, Eq)]
pub enum LookError {
    // The name has no bytes.
    EmptyName,
    // The names' bytes are no whole number of names.
    BrokenNames,
}

impl From<LookError> for u64 {
    ghost from_gives = { λ e n. n ≡ error_number e };

    fn from(why: LookError) -> u64 {
        match why {
            LookError::EmptyName => 1,
            LookError::BrokenNames => 2,
        }
    }
}

// How many pieces of the name's length stand before the first that is the name.
fn first_of(names: &[u8], name: &[u8]) -> Option<usize>
    requires { 0 < length name.now }
    ensures { result ≡ reply_of (how_near (cut (length names.now / (length name.now)) (length name.now) names.now) name.now 0) }
{
    names
        .chunks_exact(name.len())
        .position(|other| same_bytes(other, name))
}

// How many names stand before it, where a name stands first among names of its length, which follow one another with nothing between them.
pub fn look(names: &[u8], name: &[u8]) -> Result<Option<u64>, LookError>
    ensures { LookSays names.now name.now (refusal names.now name.now) result }
{
    let width = name.len();
    if width == 0 {
        return Err(LookError::EmptyName);
    }
    if names.len() % width != 0 {
        return Err(LookError::BrokenNames);
    }
    Ok(first_of(names, name).map(|before| before as u64))
}

pub fn smaller_of(a: u64, b: u64) -> u64
    ensures { result ≡ smaller a b }
{
    a.min(b)
}
