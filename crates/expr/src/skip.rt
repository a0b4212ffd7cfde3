// Where expressions, functions and programs end, by counting what is still to come: no stack, one pass.
ghost use Rattle.std.specs.Prelude.{◌≡◌, ◌+◌, length};
ghost use Rattle.expr.specs.Token.{kind_arity, program_end, Onward, Skipped, Within};
ghost use Rattle.language.specs.Reading.{ends, expr_end, params_end, fun_end, is_program, name_end, times};

use crate::source::Source;
use crate::token::{Kind, MAX_VALUES, number, read_token, skip_name};

// A program has at most so many functions, and its spelling so many bytes.
pub const MAX_FUNCTIONS: u64 = 1024;

pub const MAX_BYTES: usize = 65536;

// How many parts follow a head.
pub fn arity(kind: Kind) -> usize
    ensures { result ≡ kind_arity kind }
{
    match kind {
        Kind::Number(_) | Kind::Name(_) => 0,
        Kind::Binary(_) | Kind::Let(_) => 2,
        Kind::Call(_, values) => usize::from(values),
        Kind::If => 3,
        Kind::Tell => 1,
    }
}

// Where the next `count` expressions end. Each function says where its own answer lies: an `Option` has no type that could keep it.
pub fn skip_many<S: Source>(src: &S, count: usize, at: usize) -> Option<usize>
    ensures value { result ≡ ends count (length (S.bytes src.now)) (S.bytes src.now) at }
    ensures within { Skipped count at result (length (S.bytes src.now)) }
{
    let len = src.len();
    let mut need = count;
    let mut end = at;
    while need > 0 {
        let token = read_token(src, end)?;
        let parts = arity(token.kind);
        let left = len - token.end;
        need -= 1;
        if left < parts || left - parts < need {
            return None;
        }
        need += parts;
        end = token.end;
    }
    Some(end)
}

// Where the expression ends that begins there.
pub fn skip<S: Source>(src: &S, at: usize) -> Option<usize>
    ensures value { result ≡ expr_end (S.bytes src.now) at }
    ensures within { Within at result (length (S.bytes src.now)) }
{
    skip_many(src, 1, at)
}

// Where so many names end, one after the other. One function for names and functions, over a trait or a closure for what is skipped, would be
// longer than both.
pub fn skip_names<S: Source>(src: &S, count: u64, at: usize) -> Option<usize>
    ensures value { result ≡ times count (name_end (S.bytes src.now)) at }
    ensures within { Onward at result (length (S.bytes src.now)) }
{
    let mut end = at;
    for _ in 0..count {
        end = skip_name(src, end)?;
    }
    Some(end)
}

// Where a function's own names end, whose count stands there.
pub fn skip_params<S: Source>(src: &S, at: usize) -> Option<usize>
    ensures value { result ≡ params_end (S.bytes src.now) at }
    ensures within { Within at result (length (S.bytes src.now)) }
{
    let count = number(src, at)?;
    if count > u64::from(MAX_VALUES) {
        return None;
    }
    skip_names(src, count, at + 8)
}

// Where the function ends that begins there.
pub fn skip_function<S: Source>(src: &S, at: usize) -> Option<usize>
    ensures value { result ≡ fun_end (S.bytes src.now) at }
    ensures within { Within at result (length (S.bytes src.now)) }
{
    let params = skip_name(src, at)?;
    let body = skip_params(src, params)?;
    skip(src, body)
}

// Where so many functions end, one after the other.
fn skip_functions<S: Source>(src: &S, count: u64, at: usize) -> Option<usize>
    ensures { result ≡ times count (fun_end (S.bytes src.now)) at }
{
    let mut end = at;
    for _ in 0..count {
        end = skip_function(src, end)?;
    }
    Some(end)
}

// Where the functions of a program end, whose count stands first.
fn skip_program<S: Source>(src: &S) -> Option<usize>
    ensures { result ≡ program_end (S.bytes src.now) }
{
    let count = number(src, 0)?;
    if count > MAX_FUNCTIONS {
        return None;
    }
    skip_functions(src, count, 8)
}

// The bytes are a program's spelling, whole.
pub fn is_program<S: Source>(src: &S) -> bool
    ensures { result ≡ is_program (S.bytes src.now) }
{
    src.len() <= MAX_BYTES && skip_program(src) == Some(src.len())
}
