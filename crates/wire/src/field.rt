// The fields of a command: each is read from the front of what is left of its text.
ghost use Rattle.std.specs.Prelude.{◌≡◌, ◌≤◌, [], length, drop, nat_lt, IfNone, IfSome};
ghost use Rattle.std.specs.List.{between};
ghost use Rattle.language.specs.Basics.{every};
ghost use Rattle.model.specs.Reading.{field, name_in, place_in, index_in, last_name, target_in, last_target};
ghost use Rattle.wire.specs.Request.{bytes_told, field_told, index_told, located_told, target_told};

use expr::source::{Source, Text};
use expr::token::{number, skip_name};

// A place has at most so many numbers, each below the limit.
pub const MAX_PLACE: u64 = 4096;

pub const PART_LIMIT: u8 = 16;

// A place in a function.
#[derive(Clone, Copy, Debug, PartialEq, Eq)]
pub struct Target<'a> {
    pub function: &'a [u8],
    pub place: &'a [u8],
}

// What is left of a command's text. Where a field is missing, all of it is left as it was.
#[derive(Clone, Copy, Debug, PartialEq, Eq)]
pub struct Fields<'a> {
    pub rest: &'a [u8],
}

// All of them are below the limit.
fn are_parts(numbers: &[u8]) -> bool
    ensures { result ≡ every (λ k. nat_lt k 16) numbers.now }
{
    numbers.iter().all(|&part| part < PART_LIMIT)
}

impl<'a> Fields<'a> {
    // The bytes from the one place up to, and without, the other; what comes after them is left.
    fn cut(&mut self, from: usize, end: usize) -> &'a [u8]
        requires { (from ≤ end) × (end ≤ length self.old.rest.now) }
        ensures { field result.now self.new.rest.now ≡ field (between from end self.old.rest.now) (drop end self.old.rest.now) }
    {
        let text = self.rest;
        self.rest = &text[end..];
        &text[from..end]
    }

    pub fn name(&mut self) -> Option<&'a [u8]>
        ensures value { field_told result self.new.rest.now ≡ name_in self.old.rest.now }
        ensures kept { IfNone result (self.new ≡ self.old) }
    {
        let end = skip_name(&Text { bytes: self.rest }, 0)?;
        Some(self.cut(8, end))
    }

    // One number below the limit.
    pub fn index(&mut self) -> Option<u8>
        ensures value { index_told result self.new.rest.now ≡ index_in self.old.rest.now }
        ensures kept { IfNone result (self.new ≡ self.old) }
    {
        let (index, rest) = self.rest.split_first()?;
        if *index >= PART_LIMIT {
            return None;
        }
        self.rest = rest;
        Some(*index)
    }

    pub fn place(&mut self) -> Option<&'a [u8]>
        ensures value { field_told result self.new.rest.now ≡ place_in self.old.rest.now }
        ensures kept { IfNone result (self.new ≡ self.old) }
    {
        let count = number(&Text { bytes: self.rest }, 0)?;
        if count > MAX_PLACE {
            return None;
        }
        let end = 8 + count as usize;
        if end > self.rest.len() {
            return None;
        }
        let mut ahead = *self;
        let place = ahead.cut(8, end);
        if !are_parts(place) {
            return None;
        }
        *self = ahead;
        Some(place)
    }

    // A function's name and a place in it.
    pub fn target(&mut self) -> Option<Target<'a>>
        ensures value { located_told result self.new.rest.now ≡ target_in self.old.rest.now }
        ensures kept { IfNone result (self.new ≡ self.old) }
    {
        let mut ahead = *self;
        let function = ahead.name()?;
        let place = ahead.place()?;
        *self = ahead;
        Some(Target { function, place })
    }

    // A name with nothing after it.
    pub fn last_name(&mut self) -> Option<&'a [u8]>
        ensures value { bytes_told result ≡ last_name self.old.rest.now }
        ensures left { IfSome result (λ _. self.new.rest.now ≡ []) }
        ensures kept { IfNone result (self.new ≡ self.old) }
    {
        let mut ahead = *self;
        let name = ahead.name()?;
        let last = ahead.rest.is_empty().then_some(name)?;
        *self = ahead;
        Some(last)
    }

    // A place in a function, with nothing after it.
    pub fn last_target(&mut self) -> Option<Target<'a>>
        ensures value { target_told result ≡ last_target self.old.rest.now }
        ensures left { IfSome result (λ _. self.new.rest.now ≡ []) }
        ensures kept { IfNone result (self.new ≡ self.old) }
    {
        let mut ahead = *self;
        let target = ahead.target()?;
        let last = ahead.rest.is_empty().then_some(target)?;
        *self = ahead;
        Some(last)
    }
}
