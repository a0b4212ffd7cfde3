// A renaming, and what becomes of a use of a name under it.
ghost use Rattle.std.specs.Prelude.{◌≡◌, true, false, not, ◌&&◌, Some, None};
ghost use Rattle.expr.specs.Node.{holder_told};
ghost use Rattle.expr.specs.Token.{kind_told, spelled_in};
ghost use Rattle.language.specs.Basics.{pick, same};
ghost use Rattle.language.specs.Uses.{let_scope, scope_in, use_changes, head_changes};
ghost use Rattle.scope.specs.Scopes.{scope_told};

use expr::compare::same_spans;
use expr::node::Holder;
use expr::source::{Source, Text};
use expr::token::{Kind, Span, read_token};

// What is called in the program by the name in the span is to be called `to`.
#[derive_where(Clone, Copy)]
pub struct Renaming<'a, S: Source> {
    pub program: &'a S,
    pub from: Span,
    pub to: &'a [u8],
}

// Which names are given anew between the renamed binder and here.
#[derive(Clone, Copy, Debug, Default, PartialEq, Eq)]
pub struct Scope {
    pub old: bool,
    pub new: bool,
}

// Whether a use changes by whether it has the old name, or the new one; none where it would belong to another binder then.
fn use_by(old: bool, new: bool, scope: Scope) -> Option<bool>
    ensures { result ≡ pick (old && not scope.old) (pick scope.new None (Some true)) (pick (new && not scope.new) None (Some false)) }
{
    match (old, scope.old, new, scope.new) {
        (true, false, _, true) => None,
        (true, false, _, false) => Some(true),
        (_, _, true, false) => None,
        _ => Some(false),
    }
}

impl<S: Source> Renaming<'_, S> {
    fn is_old(&self, name: Span) -> bool
        ensures { let bs = S.bytes self.now.program.now in result ≡ same (spelled_in bs self.now.from) (spelled_in bs name) }
    {
        same_spans(self.program, self.from, self.program, name)
    }

    fn is_new(&self, name: Span) -> bool
        ensures { result ≡ same self.now.to.now (spelled_in (S.bytes self.now.program.now) name) }
    {
        let new = Text { bytes: self.to };
        let whole = Span {
            from: 0,
            to: self.to.len(),
        };
        same_spans(&new, whole, self.program, name)
    }

    // Within the let that gives the name in the span.
    fn let_scope(&self, name: Span, around: Scope) -> Scope
        ensures { let bs = S.bytes self.now.program.now in scope_told result ≡ let_scope (spelled_in bs self.now.from) self.now.to.now (scope_told around) (spelled_in bs name) }
    {
        Scope {
            old: self.is_old(name) || around.old,
            new: self.is_new(name) || around.new,
        }
    }

    // The scope of a node, along who holds it: a let gives its name in its second part only.
    pub fn scope_of(&self, holder: Option<Holder>, around: Scope) -> Scope
        ensures { let bs = S.bytes self.now.program.now in scope_told result ≡ scope_in bs (spelled_in bs self.now.from) self.now.to.now (holder_told holder) (scope_told around) }
    {
        let Some(held) = holder.filter(|held| held.part == 1) else {
            return around;
        };
        let Some(token) = read_token(self.program, held.at) else {
            return around;
        };
        match token.kind {
            Kind::Let(name) => self.let_scope(name, around),
            _ => around,
        }
    }

    // Whether a use of the name in the span changes.
    fn use_of(&self, name: Span, scope: Scope) -> Option<bool>
        ensures { let bs = S.bytes self.now.program.now in result ≡ use_changes (spelled_in bs self.now.from) self.now.to.now (scope_told scope) (spelled_in bs name) }
    {
        let old = self.is_old(name);
        let new = self.is_new(name);
        use_by(old, new, scope)
    }

    // Whether a node is a use that changes: only a name is one.
    pub fn node_use(&self, kind: Kind, scope: Scope) -> Option<bool>
        ensures { let bs = S.bytes self.now.program.now in result ≡ head_changes (spelled_in bs self.now.from) self.now.to.now (scope_told scope) (kind_told bs kind) }
    {
        match kind {
            Kind::Name(name) => self.use_of(name, scope),
            _ => Some(false),
        }
    }
}
