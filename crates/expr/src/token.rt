// Numbers, names and heads: what stands at a place in a row of bytes, and where it ends.
ghost use Rattle.std.specs.Prelude.{◌≡◌, ◌+◌, length, ◌-◌, ◌<◌, ◌≤◌, IfSome};
ghost use Rattle.expr.specs.Token.{told, LiesBehind, ReadsOperator, SameIn, span_end, token_end, HasName, Lies, Room, Within};
ghost use Rattle.language.specs.Heads.{h_var, h_bind};
ghost use Rattle.language.specs.Reading.{number_at, name_end, num_at, bin_at, call_at, named_at, head_at};

use crate::source::Source;
use std::array;

// Numbers of the language are below this.
pub const NUMBER_LIMIT: u64 = 4611686018427387904;

// A call has at most so many values, and a function so many own names.
pub const MAX_VALUES: u8 = 16;

// Where bytes lie in their row: from the first up to, and without, the last.
#[derive(Clone, Copy, Debug, PartialEq, Eq)]
pub struct Span {
    pub from: usize,
    pub to: usize,
}

impl Span {
    pub fn len(self) -> usize
        ensures { result ≡ self.to - self.from }
    {
        self.to.saturating_sub(self.from)
    }

    // As far as it lies within a row of so many bytes.
    pub fn within(self, len: usize) -> Span
        ensures ordered { result.from ≤ result.to }
        ensures inside { result.to ≤ len }
        ensures same { SameIn len self result }
    {
        let to = self.to.min(len);
        Span {
            from: self.from.min(to),
            to,
        }
    }
}

#[derive(Clone, Copy, Debug, PartialEq, Eq)]
pub enum Operator {
    Sum,
    Difference,
    Product,
    Quotient,
    Equal,
    Below,
}

// A byte that stands for no operator.
#[derive(Clone, Copy, Debug, PartialEq, Eq)]
pub struct NoOperator(pub u8);

// An expression's kind, with what in it is no expression.
#[derive(Clone, Copy, Debug, PartialEq, Eq)]
pub enum Kind {
    Number(u64),
    Name(Span),
    Binary(Operator),
    // How many values follow.
    Call(Span, u8),
    Let(Span),
    If,
    Tell,
}

#[derive(Clone, Copy, Debug, PartialEq, Eq)]
pub struct Token {
    pub kind: Kind,
    // Where the first part begins, or what comes after the expression.
    pub end: usize,
}

// Eight bytes, the highest first.
pub fn number<S: Source>(src: &S, at: usize) -> Option<u64>
    ensures value { result ≡ number_at (S.bytes src.now) at }
    ensures within { Room (at + 8) result (length (S.bytes src.now)) }
{
    let len = src.len();
    if len < 8 || at > len - 8 {
        return None;
    }
    Some(u64::from_be_bytes(array::from_fn(|k| src.at(at + k))))
}

// Where the name ends whose length stands there; its bytes begin eight further on.
pub fn skip_name<S: Source>(src: &S, at: usize) -> Option<usize>
    ensures value { result ≡ name_end (S.bytes src.now) at }
    ensures within { Within (at + 9) result (length (S.bytes src.now)) }
{
    let count = number(src, at)?;
    if count < 1 || count > 32 {
        return None;
    }
    let from = at + 8;
    let count = count as usize;
    if src.len() - from < count {
        return None;
    }
    Some(from + count)
}

// Where the bytes of the name lie whose length stands there.
pub fn read_name<S: Source>(src: &S, at: usize) -> Option<Span>
    ensures value { span_end result ≡ name_end (S.bytes src.now) at }
    ensures lies { IfSome result (λ s. (s.from ≡ at + 8) × (s.from < s.to)) }
    ensures within { Within (at + 9) (span_end result) (length (S.bytes src.now)) }
{
    let to = skip_name(src, at)?;
    Some(Span { from: at + 8, to })
}

fn number_token<S: Source>(src: &S, at: usize) -> Option<Token>
    ensures value { told (S.bytes src.now) result ≡ num_at (S.bytes src.now) at }
    ensures lies { LiesBehind at result (length (S.bytes src.now)) }
{
    let n = number(src, at)?;
    if n >= NUMBER_LIMIT {
        return None;
    }
    Some(Token {
        kind: Kind::Number(n),
        end: at + 8,
    })
}

impl TryFrom<u8> for Operator {
    type Error = NoOperator;

    ghost try_from_gives = { ReadsOperator };

    fn try_from(code: u8) -> Result<Operator, NoOperator> {
        match code {
            0 => Ok(Operator::Sum),
            1 => Ok(Operator::Difference),
            2 => Ok(Operator::Product),
            3 => Ok(Operator::Quotient),
            4 => Ok(Operator::Equal),
            5 => Ok(Operator::Below),
            _ => Err(NoOperator(code)),
        }
    }
}

fn binary_token<S: Source>(src: &S, at: usize) -> Option<Token>
    ensures value { told (S.bytes src.now) result ≡ bin_at (S.bytes src.now) at }
    ensures lies { LiesBehind at result (length (S.bytes src.now)) }
{
    if at >= src.len() {
        return None;
    }
    let operator = Operator::try_from(src.at(at)).ok()?;
    Some(Token {
        kind: Kind::Binary(operator),
        end: at + 1,
    })
}

fn call_token<S: Source>(src: &S, at: usize) -> Option<Token>
    ensures value { told (S.bytes src.now) result ≡ call_at (S.bytes src.now) at }
    ensures lies { LiesBehind at result (length (S.bytes src.now)) }
{
    let name = read_name(src, at)?;
    if name.to >= src.len() {
        return None;
    }
    let values = src.at(name.to);
    if values > MAX_VALUES {
        return None;
    }
    Some(Token {
        kind: Kind::Call(name, values),
        end: name.to + 1,
    })
}

// What stands first in the expression there.
pub fn read_token<S: Source>(src: &S, at: usize) -> Option<Token>
    ensures value { told (S.bytes src.now) result ≡ head_at (S.bytes src.now) at }
    ensures within { Within (at + 1) (token_end result) (length (S.bytes src.now)) }
    ensures lies { Lies (at + 1) result }
    ensures named { IfSome result (λ t. HasName t.kind) }
{
    if at >= src.len() {
        return None;
    }
    let rest = at + 1;
    // The byte is the spelling itself, and this is its one reader.
    match src.at(at) {
        0 => number_token(src, rest),
        1 => read_name(src, rest).map(|name| Token {
            kind: Kind::Name(name),
            end: name.to,
        }),
        2 => binary_token(src, rest),
        3 => call_token(src, rest),
        4 => read_name(src, rest).map(|name| Token {
            kind: Kind::Let(name),
            end: name.to,
        }),
        5 => Some(Token {
            kind: Kind::If,
            end: rest,
        }),
        6 => Some(Token {
            kind: Kind::Tell,
            end: rest,
        }),
        _ => None,
    }
}
