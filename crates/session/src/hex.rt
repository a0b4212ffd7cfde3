// Bytes as hex digits, two to a byte: written in lower case, read in either.
ghost use Rattle.std.specs.Prelude.{◌≡◌, ◌<◌, ◌≤◌, ◌++◌, length, is_ok, if◌then◌else◌};
ghost use Rattle.session.specs.declared.hex.HexError.TheVariants.{OutOfMemory};
ghost use Rattle.session.specs.Hex.{digit, digit_value, digits, EvenDigits, ReadBack};
ghost use Rattle.session.specs.HexResults.{DigitAt, FitsBeyond, moved, ReadsByte, ReadsHex, WritesHex};

use std::alloc::{AllocError, AllocFailed, Global};

// Why a text is not read. Positions count bytes from 0.
#[derive(Clone, Copy, Debug, PartialEq, Eq)]
pub enum HexError {
    // The byte at this position is the first that is no hex digit.
    NotADigit(usize),
    // All bytes are digits, but the text ends here, between the two of a byte.
    MissingDigit(usize),
    OutOfMemory,
}

impl HexError {
    // The same error of a text that begins `margin` bytes further on.
    pub(crate) fn beyond(self, margin: usize) -> HexError
        requires { FitsBeyond margin self }
        ensures { result ≡ moved margin self }
    {
        match self {
            HexError::NotADigit(at) => HexError::NotADigit(margin + at),
            HexError::MissingDigit(at) => HexError::MissingDigit(margin + at),
            HexError::OutOfMemory => HexError::OutOfMemory,
        }
    }
}

// By hand, since the contracts below name the error: a derived `From` says nothing of it.
impl From<AllocError> for HexError {
    ghost from_gives = { λ _ r. r ≡ OutOfMemory };

    fn from(_error: AllocError) -> HexError {
        HexError::OutOfMemory
    }
}

impl<T: Drop> From<AllocFailed<T>> for HexError {
    ghost from_gives = { λ _ r. r ≡ OutOfMemory };

    fn from(_refused: AllocFailed<T>) -> HexError {
        HexError::OutOfMemory
    }
}

fn digit_of(value: u8) -> u8
    requires { value < 16 }
    ensures { result ≡ digit value }
{
    char::from_digit(u32::from(value), 16).unwrap() as u8
}

// Not by `to_digit`, which tells the letters of any radix: a program's line then takes two fifths longer.
fn value_of(byte: u8) -> Option<u8>
    ensures { result ≡ digit_value byte }
{
    let digit = byte.wrapping_sub(b'0');
    if digit < 10 {
        return Some(digit);
    }
    let letter = byte.to_ascii_lowercase().wrapping_sub(b'a');
    if letter < 6 {
        return Some(letter + 10);
    }
    None
}

fn digit_at(pair: &[u8], at: usize) -> Result<u8, HexError>
    ensures { DigitAt pair.now at result }
{
    let byte = pair.get(at).ok_or(HexError::MissingDigit(at))?;
    value_of(*byte).ok_or(HexError::NotADigit(at))
}

fn read_pair(pair: &[u8]) -> Result<u8, HexError>
    requires some { 0 < length pair.now }
    requires two { length pair.now ≤ 2 }
    ensures { ReadsByte pair.now result }
{
    let high = digit_at(pair, 0)?;
    let low = digit_at(pair, 1)?;
    Ok(16 * high + low)
}

// By two digits, since `{:02x}` takes ten times as long.
fn write_byte(out: &mut Vec<u8>, byte: u8) -> Result<(), AllocError>
    ensures { out.new.items ≡ (if is_ok result then out.old.items ++ digits byte else out.old.items) }
{
    out.extend_from_slice(&[digit_of(byte / 16), digit_of(byte % 16)])
}

// Appends the digits of `bytes`. Where memory fails, `out` has those of some first bytes.
#[tactic(auto, using(crate::proofs::Laws::read_back))]
pub fn write_hex(out: &mut Vec<u8>, bytes: &[u8]) -> Result<(), AllocError>
    ensures written { WritesHex out.old.items bytes.now out.new.items result }
    ensures read_back { ReadBack }
{
    for byte in bytes {
        write_byte(out, *byte)?;
    }
    Ok(())
}

// A text of an even number of digits is read; any other is refused at its first fault.
#[tactic(auto, using(crate::proofs::Laws::even_digits))]
pub fn read_hex(heap: Global, text: &[u8]) -> Result<Vec<u8>, HexError>
    ensures read { ReadsHex text.now result }
    ensures even_digits { EvenDigits }
{
    let mut bytes = Vec::with_capacity(heap, text.len() / 2)?;
    // By `as_chunks`, whose pairs are two bytes by their type: of `chunks(2)` each pair's length is tested.
    let (pairs, alone) = text.as_chunks::<2>();
    for pair in pairs {
        let byte = read_pair(pair).map_err(|error| error.beyond(2 * bytes.len()))?;
        bytes.push(byte)?;
    }
    // A byte that is alone is no pair of digits, whatever it is.
    if !alone.is_empty() {
        read_pair(alone).map_err(|error| error.beyond(2 * bytes.len()))?;
    }
    Ok(bytes)
}
