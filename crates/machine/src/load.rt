// Loading a program: its names are compared, and its bytes put where the current program lies.
ghost use Rattle.std.specs.Prelude.{◌≡◌, ◌+◌, ◌*◌, ◌<◌, ◌≤◌, ◌++◌, length, take, drop};
ghost use Rattle.expr.specs.Token.{spelled_in};
ghost use Rattle.language.specs.Contents.{is_fine};
ghost use Rattle.language.specs.Packed.{words_for, word_of, packed};
ghost use Rattle.language.specs.Table.{hash, table_from, none_like, all_differ};
ghost use Rattle.machine.specs.Entries.{entries};
ghost use Rattle.machine.specs.History.{loaded};
ghost use Rattle.machine.specs.Machine.{table_cleared, load_step};
ghost use Rattle.machine.specs.Told.{Does};

use crate::region::clear;
use crate::told::{Refusal, Told};
use expr::compare::same_names;
use expr::source::{Source, Text};
use expr::token::{Span, number};
use memory::layout::{CURRENT, FRAMES, LENGTHS, Memory, NEWEST_OLDER, OLDER};
use wire::functions::{Function, Functions};
use wire::program::owns_differ;
use wire::spelling::Spelling;

// Two words for each of the 1,024 functions that a program has at most, in lent memory: there is no heap for a map.
const TABLE_WORDS: usize = 2048;

// Each byte of a name counts so many times the next: a prime, so that few names come to one number.
const HASH_FACTOR: u64 = 1099511628211;

// Fewer than eight bytes as one word, with zeros behind them.
fn last_word(bytes: &[u8]) -> u64
    requires { length bytes.now < 8 }
    ensures { result ≡ word_of bytes.now 0 }
{
    let mut whole = [0; 8];
    whole[..bytes.len()].copy_from_slice(bytes);
    u64::from_be_bytes(whole)
}

// The bytes eight to a word, at the beginning of the words; the others stay.
fn pack(words: &mut [u64], text: &[u8])
    requires { words_for (length text.now) ≤ length words.old }
    ensures { words.new ≡ packed text.now ++ drop (words_for (length text.now)) words.old }
{
    let (whole, last) = text.as_chunks::<8>();
    // By a number, since after `iter_mut` with `zip` nothing is known of the words: tried.
    for (k, bytes) in whole.iter().enumerate() {
        words[k] = u64::from_be_bytes(*bytes);
    }
    if !last.is_empty() {
        words[whole.len()] = last_word(last);
    }
}

// The number that the name in the span comes to, as far as it lies within the source.
fn hash_span<S: Source>(src: &S, span: Span) -> u64
    ensures { result ≡ hash (spelled_in (S.bytes src.now) span) }
{
    let span = span.within(src.len());
    (span.from..span.to).fold(0, |sum: u64, at| {
        sum.wrapping_mul(HASH_FACTOR)
            .wrapping_add(u64::from(src.at(at)))
    })
}

// Where the bytes of the function's name lie.
fn name_of(f: Function) -> Span
    requires { f.at + 8 ≤ f.params }
    ensures from { result.from ≡ f.at + 8 }
    ensures to { result.to ≡ f.params }
{
    Span {
        from: f.at + 8,
        to: f.params,
    }
}

// Writes the table of `count` functions, and says how many entries it has.
fn fill_table<S: Source>(src: &S, count: usize, table: &mut [[u64; 2]]) -> usize
    requires { count ≤ length table.old }
    ensures within { result ≤ length table.old }
    ensures value { entries (take result table.new) ≡ table_from count (S.bytes src.now) 8 }
{
    let mut filled = 0;
    for (done, f) in Functions::new(src, count as u64, 8).enumerate() {
        table[done] = [hash_span(src, name_of(f)), f.at as u64];
        filled = done + 1;
    }
    filled
}

// None of these functions has the name that stands at `at` and comes to `sum`.
fn none_like<S: Source>(src: &S, sum: u64, at: usize, table: &[[u64; 2]]) -> bool
    ensures { result ≡ none_like (S.bytes src.now) sum at (entries table.now) }
{
    table.iter().all(|[other, there]| *other != sum || !same_names(src, at, *there as usize))
}

// No two functions of the table have one name.
#[tactic(auto, using(crate::proofs::EntryFacts::differ_none, crate::proofs::EntryFacts::differ_turn))]
fn table_differs<S: Source>(src: &S, table: &[[u64; 2]]) -> bool
    ensures { result ≡ all_differ (S.bytes src.now) (entries table.now) }
{
    match table {
        [] => true,
        [[sum, at], rest @ ..] => {
            none_like(src, *sum, *at as usize, rest) && table_differs(src, rest)
        }
    }
}

// No two functions have one name, and no function has two own names that are one. What the table holds then is no matter.
fn is_fine(program: Spelling<'_>, table: &mut [[u64; 2]]) -> bool
    requires { 1024 ≤ length table.old }
    ensures { result ≡ is_fine program.entry.bytes.now }
{
    let src = &Text {
        bytes: program.bytes,
    };
    // A closure for `is_none_or` would need both clauses again, since it calls what has a requires: no plainer.
    let Some(count) = number(src, 0) else {
        return true;
    };
    let filled = fill_table(src, count as usize, table);
    table_differs(src, &table[..filled]) && owns_differ(src, count)
}

// The same, with the table in the frames, which are zeros afterwards, whatever came out.
fn names_differ(memory: &mut Memory, program: Spelling<'_>) -> bool
    ensures value { result ≡ is_fine program.entry.bytes.now }
    ensures after { memory.new ≡ table_cleared memory.old }
{
    let (table, _) = memory[FRAMES..FRAMES + TABLE_WORDS].as_chunks_mut::<2>();
    let fine = is_fine(program, table);
    clear(memory, FRAMES..FRAMES + TABLE_WORDS);
    fine
}

// The program is the current one, and there is nothing to go back to.
fn store(memory: &mut Memory, program: Spelling<'_>)
    ensures { memory.new ≡ loaded memory.old program.entry.bytes.now }
{
    pack(&mut memory[CURRENT..NEWEST_OLDER], program.bytes);
    memory[OLDER] = 0;
    memory[LENGTHS] = program.bytes.len() as u64 - 8;
}

// The program becomes the current one if its names differ.
pub fn load(memory: &mut Memory, program: Spelling<'_>) -> Told
    ensures { Does (load_step memory.old program.entry.bytes.now) result memory.new }
{
    if !names_differ(memory, program) {
        return Err(Refusal::NameTaken);
    }
    store(memory, program);
    Ok(None)
}
