// A machine on the bench: it is lent a memory and a row of any lengths, and what a step did to them is looked at.
ghost use Rattle.std.specs.Prelude.{◌≡◌, is_ok};

use machine::step::{Kind, ROW_BYTES, step};
use machine::told::Told;
use memory::layout::MEMORY_WORDS;
use std::alloc::{AllocError, Global};
use std::test::*;

// What each byte of the row is before a step. No row of these examples has it.
const UNTOUCHED: u8 = 0xaa;

// The test fails with this message, unless the fact holds.
fn check(holds: bool, otherwise: &str) -> Result<(), Fail>
    ensures { is_ok result ≡ holds }
{
    if holds {
        return Ok(());
    }
    Err(Fail::new(otherwise))
}

// The test fails with what was told, unless it is what should be.
fn check_told(told: Told, expected: Told) -> Result<(), Fail> {
    if told == expected {
        return Ok(());
    }
    Err(Fail::new(format_args!("told {told:?}, and not {expected:?}")))
}

// The test fails with what was told, unless it is a refusal with this number.
fn check_refused(told: Told, number: u64) -> Result<(), Fail> {
    if told.map_err(u64::from) == Err(number) {
        return Ok(());
    }
    Err(Fail::new(format_args!("told {told:?}, and not refused with {number}")))
}

#[derive(Drop)]
pub struct Bench {
    memory: Vec<u64>,
    row: Vec<u8>,
}

impl Bench {
    pub fn fresh(heap: Global) -> Result<Bench, AllocError> {
        Bench::lent(heap, MEMORY_WORDS, ROW_BYTES)
    }

    pub fn lent(heap: Global, words: usize, row_bytes: usize) -> Result<Bench, AllocError> {
        let memory = vec![in heap; 0u64; words]?;
        let row = vec![in heap; UNTOUCHED; row_bytes]?;
        Ok(Bench { memory, row })
    }

    pub fn word(&self, at: usize) -> Result<u64, Fail> {
        check(at < self.memory.len(), "no such word")?;
        Ok(self.memory[at])
    }

    pub fn set_word(&mut self, at: usize, value: u64) -> Result<(), Fail> {
        check(at < self.memory.len(), "no such word")?;
        self.memory[at] = value;
        Ok(())
    }

    fn step(&mut self, kind: u64, text: &[u8]) -> Told {
        step(
            self.memory.as_mut_slice(),
            kind,
            text,
            self.row.as_mut_slice(),
        )
    }

    fn say(&mut self, command: &[u8]) -> Told {
        self.step(Kind::Said.into(), command)
    }

    fn go_on(&mut self) -> Told {
        self.step(Kind::GoOn.into(), &[])
    }

    // The command is done.
    pub fn does(&mut self, command: &[u8]) -> Result<(), Fail> {
        check_told(self.say(command), Ok(None))
    }

    // The command is refused with this number.
    pub fn refuses(&mut self, command: &[u8], number: u64) -> Result<(), Fail> {
        check_refused(self.say(command), number)
    }

    // The command's first row is this one.
    pub fn shows(&mut self, command: &[u8], row: &[u8]) -> Result<(), Fail> {
        let told = self.say(command);
        self.has_shown(told, row)
    }

    // The next row of the answer under way is this one.
    pub fn goes_on_with(&mut self, row: &[u8]) -> Result<(), Fail> {
        let told = self.go_on();
        self.has_shown(told, row)
    }

    // The answer under way has no more rows.
    pub fn ends(&mut self) -> Result<(), Fail> {
        check_told(self.go_on(), Ok(None))
    }

    // No answer is under way.
    pub fn is_idle(&mut self) -> Result<(), Fail> {
        self.misused(Kind::GoOn.into(), &[])
    }

    // This row was shown; behind it the lent row is as it was.
    fn has_shown(&mut self, told: Told, row: &[u8]) -> Result<(), Fail> {
        check_told(told, Ok(Some(row.len() as u64)))?;
        check(
            row.len() <= self.row.len(),
            "the row is longer than the lent one",
        )?;
        check(&self.row[..row.len()] == row, "the row is another")?;
        for byte in &self.row[row.len()..] {
            check(*byte == UNTOUCHED, "a byte behind the row is written")?;
        }
        self.row.as_mut_slice().fill(UNTOUCHED);
        Ok(())
    }

    // The step is refused with 0, and no word of the memory and no byte of the row is changed.
    pub fn misused(&mut self, kind: u64, text: &[u8]) -> Result<(), Fail> {
        let memory = self.memory.clone()?;
        let row = self.row.clone()?;
        check_refused(self.step(kind, text), 0)?;
        check(self.memory == memory, "a word of the memory is changed")?;
        check(self.row == row, "a byte of the row is changed")
    }
}
