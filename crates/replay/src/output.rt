// What a replay prints, collected and written in large pieces.
use session::{Ending, write_ending, write_row};
use std::alloc::Global;
use std::io;
use std::io::{Stdout, Write};

// Standard output is unbuffered: each write is a call of the system. Not a `BufWriter`: a row's line is made in a `Vec`,
// and would be copied once more.
const PIECE_BYTES: usize = 65536;

#[derive(Drop)]
pub struct Output {
    stdout: Stdout,
    pending: Vec<u8>,
}

impl Output {
    pub fn new(heap: Global, stdout: Stdout) -> Output {
        let pending = Vec::new(heap);
        Output { stdout, pending }
    }

    pub fn row(&mut self, row: &[u8]) -> io::Result<()> {
        write_row(&mut self.pending, row)?;
        self.flush_large()
    }

    pub fn ending(&mut self, ending: Ending) -> io::Result<()> {
        write_ending(&mut self.pending, ending)?;
        self.flush_large()
    }

    fn flush_large(&mut self) -> io::Result<()> {
        if self.pending.len() < PIECE_BYTES {
            return Ok(());
        }
        self.flush()
    }

    pub fn flush(&mut self) -> io::Result<()> {
        self.stdout.write_all(self.pending.as_slice())?;
        self.pending.clear();
        Ok(())
    }
}
