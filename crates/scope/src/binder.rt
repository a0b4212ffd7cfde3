// What gives a name: a let, or a function's own names.
ghost use Rattle.std.specs.Prelude.{◌≡◌, length, IfSome};
ghost use Rattle.language.specs.Binders.{let_at, own_at, own_binder};
ghost use Rattle.language.specs.Contents.{own_names, body_of};
ghost use Rattle.language.specs.Names.{has};
ghost use Rattle.model.specs.Capture.{others};
ghost use Rattle.scope.specs.Binding.{binder_told, BinderLies};
ghost use Rattle.wire.specs.Walk.{names_told};

use expr::compare::is_name;
use expr::skip::{skip, skip_names, skip_params};
use expr::source::Source;
use expr::token::{Kind, Span, number, read_token, skip_name};
use wire::names::Names;

#[derive(Clone, Copy, Debug, PartialEq, Eq)]
pub struct Binder {
    // Where the name's bytes lie, eight bytes behind where it begins.
    pub name: Span,
    // Where the expression begins that it is given to.
    pub body: usize,
}

// The let that begins there; none where something else does.
pub fn let_at<S: Source>(src: &S, at: usize) -> Option<Binder>
    ensures value { binder_told (S.bytes src.now) result ≡ let_at (S.bytes src.now) at }
    ensures lies { BinderLies result (length (S.bytes src.now)) }
{
    let token = read_token(src, at)?;
    let Kind::Let(name) = token.kind else {
        return None;
    };
    let body = skip(src, token.end)?;
    Some(Binder { name, body })
}

// Where the body begins of the function there.
pub fn body_of<S: Source>(src: &S, function: usize) -> Option<usize>
    ensures { result ≡ body_of (S.bytes src.now) function }
{
    let params = skip_name(src, function)?;
    skip_params(src, params)
}

// Where the own name of that number stands.
fn own_at<S: Source>(src: &S, function: usize, index: u8) -> Option<usize>
    ensures { result ≡ own_at (S.bytes src.now) function index }
{
    let params = skip_name(src, function)?;
    let count = number(src, params)?;
    if u64::from(index) >= count {
        return None;
    }
    skip_names(src, u64::from(index), params + 8)
}

// The own name of that number of the function there; none where there are not so many.
pub fn own_name<S: Source>(src: &S, function: usize, index: u8) -> Option<Binder>
    ensures value { binder_told (S.bytes src.now) result ≡ own_binder (S.bytes src.now) function index }
    ensures lies { BinderLies result (length (S.bytes src.now)) }
{
    let at = own_at(src, function, index)?;
    let to = skip_name(src, at)?;
    let body = body_of(src, function)?;
    Some(Binder {
        name: Span { from: at + 8, to },
        body,
    })
}

// The own names of the function there, in their order.
// A row and a place in it stay two parameters: a struct of both would be made by each caller for one call, and one that also had where the
// name ends would ask of callers that a name ends there.
fn own_names<S: Source>(src: &S, function: usize) -> Option<Names<'_, S>>
    ensures value { names_told S.bytes result ≡ own_names (S.bytes src.now) function }
    ensures row { IfSome result (λ names. names.src.now ≡ src.now) }
{
    let params = skip_name(src, function)?;
    Names::counted(src, params)
}

// Another own name of the function than that of the number is `name`.
pub fn other_own_is<S: Source>(src: &S, function: usize, index: u8, name: &[u8]) -> bool
    ensures { result ≡ has (others (own_names (S.bytes src.now) function) index) name.now }
{
    let Some(names) = own_names(src, function) else {
        return false;
    };
    names.enumerate().any(|(number, at)| number != usize::from(index) && is_name(src, at, name))
}
