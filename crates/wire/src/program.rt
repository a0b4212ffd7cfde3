// Programs in rows of bytes: where a function stands, and whether names differ.
ghost use Rattle.std.specs.Prelude.{◌≡◌};
ghost use Rattle.language.specs.Contents.{owns_differ, find_function};
ghost use Rattle.language.specs.Names.{distinct};
ghost use Rattle.wire.specs.Walk.{names_counted};

use crate::functions::Functions;
use crate::names::Names;
use expr::compare::is_name;
use expr::source::Source;
use expr::token::number;

// Where the function of that name begins.
pub fn find_function<S: Source>(src: &S, name: &[u8]) -> Option<usize>
    ensures { result ≡ find_function (S.bytes src.now) name.now }
{
    Functions::new(src, number(src, 0)?, 8)
        .find(|f| is_name(src, f.at, name))
        .map(|f| f.at)
}

// No two own names are the same of the function whose name ends there.
fn own_names_differ<S: Source>(src: &S, params: usize) -> bool
    ensures { result ≡ distinct (names_counted (S.bytes src.now) params) }
{
    match Names::counted(src, params) {
        Some(names) => names.differ(),
        None => true,
    }
}

// In none of `count` functions are two own names the same.
pub fn owns_differ<S: Source>(src: &S, count: u64) -> bool
    ensures { result ≡ owns_differ count (S.bytes src.now) 8 }
{
    Functions::new(src, count, 8).all(|f| own_names_differ(src, f.params))
}
