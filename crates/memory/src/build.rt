// Writing a new program into the build area: bytes are appended, eight make a word.
ghost use Rattle.std.specs.Prelude.{◌≡◌, ◌+◌, ◌/◌, ◌%◌, ◌<◌, ◌≤◌, length};
ghost use Rattle.expr.specs.Token.{spelled_in};
ghost use Rattle.language.specs.Bytes.{eight, with_length};
ghost use Rattle.memory.specs.Build.{writing, pushed, Appended, finished};
ghost use Rattle.memory.specs.Layout.{zero_words};

use crate::layout::Slot;
use expr::skip::MAX_BYTES;
use expr::source::{Source, Text};
use expr::token::Span;

const WORD_BYTES: usize = 8;

// How far a writing is: so many bytes are written, those since the last whole word in `word`.
#[derive(Clone, Copy, Debug, PartialEq, Eq)]
pub struct Build {
    pub written: usize,
    pub word: u64,
}

impl Build {
    // How many words of the area are whole.
    pub fn words(self) -> usize
        ensures { result ≡ self.written / 8 }
    {
        self.written / WORD_BYTES
    }

    // How many bytes were written since.
    pub fn filled(self) -> usize
        ensures { result ≡ self.written % 8 }
    {
        self.written % WORD_BYTES
    }
}

// A program that is being written: its area, and how far the writing is.
#[derive(Drop)]
pub struct Writer<'a> {
    pub area: &'a mut Slot,
    pub build: Build,
}

impl<'a> Writer<'a> {
    // Nothing is written yet, and the area is zeros.
    pub fn begin(area: &'a mut Slot) -> Writer<'a>
        ensures same_reference { result.area.ghost_name ≡ area.entry.ghost_name }
        ensures value { (result.build.written ≡ 0) × (result.build.word ≡ 0) }
        ensures after { result.area.now ≡ zero_words 8192 }
    {
        area.fill(0);
        Writer {
            area,
            build: Build {
                written: 0,
                word: 0,
            },
        }
    }

    fn push(&mut self, byte: u8)
        requires { self.old.build.written < 65536 }
        ensures same_reference { self.new.area.ghost_name ≡ self.old.area.ghost_name }
        ensures value { writing self.new ≡ pushed (writing self.old) byte }
    {
        let start = self.build;
        self.build.word = start.word.wrapping_mul(256).wrapping_add(u64::from(byte));
        self.build.written = start.written + 1;
        if self.build.filled() == 0 {
            self.area[start.words()] = self.build.word;
            self.build.word = 0;
        }
    }

    // The bytes in the span, as far as it lies within the row.
    pub fn append<S: Source>(&mut self, src: &S, span: Span) -> Option<()>
        ensures same_reference { self.new.area.ghost_name ≡ self.old.area.ghost_name }
        ensures value { Appended self.old (spelled_in (S.bytes src.now) span) result self.new }
    {
        let inside = span.within(src.len());
        if self.build.written.saturating_add(inside.len()) > MAX_BYTES {
            return None;
        }
        for i in inside.from..inside.to {
            self.push(src.at(i));
        }
        Some(())
    }

    pub fn append_bytes(&mut self, bytes: &[u8]) -> Option<()>
        ensures same_reference { self.new.area.ghost_name ≡ self.old.area.ghost_name }
        ensures value { Appended self.old bytes.now result self.new }
    {
        let span = Span {
            from: 0,
            to: bytes.len(),
        };
        self.append(&Text { bytes }, span)
    }

    // A name with its length before it.
    pub fn append_name(&mut self, name: &[u8]) -> Option<()>
        ensures same_reference { self.new.area.ghost_name ≡ self.old.area.ghost_name }
        ensures value { Appended self.old (with_length name.now) result self.new }
    {
        // Nothing is written unless there is room for both.
        let len = name.len();
        if self.build.written.saturating_add(8).saturating_add(len) > MAX_BYTES {
            return None;
        }
        self.append_bytes(&len.to_be_bytes())?;
        self.append_bytes(name)
    }

    // The last word is whole, with zeros behind; how many bytes were written.
    pub fn finish(self) -> usize
        requires { self.build.written ≤ 65536 }
        ensures value { result ≡ self.entry.build.written }
        ensures after { self.exit.0.now ≡ finished (writing self.entry) }
    {
        let count = self.build.written;
        let filled = self.build.filled();
        if filled != 0 {
            self.area[self.build.words()] = self.build.word << (64 - 8 * filled);
        }
        count
    }
}
