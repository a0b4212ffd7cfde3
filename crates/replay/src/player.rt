// A machine with the memory and the row that it is lent, told the commands of a session.
ghost use Rattle.std.specs.Prelude.{◌≡◌, replicate, vec_len};

use crate::fault::Stop;
use crate::output::Output;
use machine::step::{Kind, ROW_BYTES, step};
use machine::told::Told;
use memory::layout::MEMORY_WORDS;
use session::{Ending, read_line};
use std::alloc::Global;
use std::io;
use std::io::Stdout;

// A command shows at most 1,024 rows; past this it is taken never to end.
const MOST_ROWS: usize = 4096;

#[derive(Drop)]
pub struct Player {
    heap: Global,
    memory: Vec<u64>,
    row: Vec<u8>,
    line: u64,
    output: Output,
}

impl Player {
    pub fn new(heap: Global, stdout: Stdout) -> io::Result<Player> {
        let memory = vec![in heap; 0u64; MEMORY_WORDS]?;
        let row = vec![in heap; 0u8; ROW_BYTES]?;
        let output = Output::new(heap, stdout);
        Ok(Player {
            heap,
            memory,
            row,
            line: 0,
            output,
        })
    }

    pub fn heap(&self) -> Global {
        self.heap
    }

    // Begins a session: the machine has forgotten all.
    pub fn start(&mut self)
        ensures memory { self.new.memory.items ≡ replicate (vec_len self.old.memory) 0 }
        ensures line { self.new.line ≡ 0 }
    {
        self.memory.as_mut_slice().fill(0);
        self.line = 0;
    }

    pub fn play_line(&mut self, text: &[u8]) -> Result<(), Stop> {
        self.line = self.line.saturating_add(1);
        let said = read_line(self.heap, text).map_err(|error| Stop::in_line(self.line, error))?;
        match said {
            Some(command) => self.say(command.as_slice()),
            None => Ok(()),
        }
    }

    fn step(&mut self, kind: Kind, text: &[u8]) -> Told {
        step(
            self.memory.as_mut_slice(),
            kind.into(),
            text,
            self.row.as_mut_slice(),
        )
    }

    fn say(&mut self, command: &[u8]) -> Result<(), Stop> {
        let mut told = self.step(Kind::Said, command);
        for _ in 0..=MOST_ROWS {
            match told {
                Ok(Some(len)) => self.show(len)?,
                Ok(None) => return Ok(self.output.ending(Ending::Done)?),
                Err(why) => return Ok(self.output.ending(Ending::Refused(why.into()))?),
            }
            told = self.step(Kind::GoOn, &[]);
        }
        Err(Stop::Endless { line: self.line })
    }

    fn show(&mut self, len: u64) -> Result<(), Stop> {
        let row = self.row.as_slice().get(..len as usize);
        let row = row.ok_or(Stop::LongRow { line: self.line })?;
        Ok(self.output.row(row)?)
    }

    pub fn flush(&mut self) -> io::Result<()> {
        self.output.flush()
    }
}
