// The uses that a renaming changes, listed in lent memory by one walk through what the binder gives its name to.
ghost use Rattle.std.specs.Prelude.{◌≡◌, ◌-◌, ◌<◌, ◌≤◌, length, take, Some, IfSome};
ghost use Rattle.expr.specs.Node.{holder_told};
ghost use Rattle.expr.specs.Token.{spelled_in, kind_arity};
ghost use Rattle.language.specs.Uses.{use_listed, after_leaf, after_head, uses_from, uses_of};
ghost use Rattle.scope.specs.Frames.{stacked};
ghost use Rattle.scope.specs.Scopes.{scope_told};
ghost use Rattle.scope.specs.Walks.{walk_in, walk_told, sight_of, seen_told, count_told, GoesOn, frame_opened, Visits};

use crate::frames::{Frame, MAX_FRAMES};
use crate::renaming::{Renaming, Scope};
use crate::walk::Walk;
use expr::node::{Holder, Node, read_node};
use expr::skip::arity;
use expr::source::Source;
use memory::layout::{Frames, Slot};
use std::ops::ControlFlow;

// At most so many uses are listed: each has nine bytes at least.
pub const MAX_USES: usize = 8192;

// A node on the way, with its scope, and whether it is a use that changes.
#[derive(Clone, Copy, Debug, PartialEq, Eq)]
pub struct Seen {
    pub node: Node,
    pub scope: Scope,
    pub changes: bool,
}

// The node that comes next; none where no node begins or a use would be captured.
fn see<S: Source>(renaming: &Renaming<'_, S>, walk: Walk) -> Option<Seen>
    ensures further { IfSome result (λ s. walk.at < s.node.end) }
    ensures value { let bs = S.bytes renaming.now.program.now in seen_told bs result ≡ sight_of bs (spelled_in bs renaming.now.from) renaming.now.to.now (holder_told walk.holder) (scope_told walk.around) walk.at }
{
    let node = read_node(renaming.program, walk.at, walk.holder)?;
    let scope = renaming.scope_of(node.holder, walk.around);
    let changes = renaming.node_use(node.kind, scope)?;
    Some(Seen {
        node,
        scope,
        changes,
    })
}

// Lists the name at `at` if it changes, and says how many are listed then; none where there is no room.
fn note_use(list: &mut Slot, uses: usize, at: usize, changes: bool) -> Option<usize>
    requires { uses ≤ 8192 }
    ensures value { count_told list.new result ≡ use_listed (take uses list.old) at changes }
    ensures few { IfSome result (λ n. n ≤ 8192) }
{
    if !changes {
        return Some(uses);
    }
    if uses >= MAX_USES {
        return None;
    }
    list[uses] = at as u64;
    Some(uses + 1)
}

// The next part of the newest frame comes next, and the last takes its frame away; where none is open, the walk is over, and so many uses are
// listed.
fn next_part(frames: &mut Frames, walk: Walk, at: usize) -> ControlFlow<usize, Walk>
    ensures { GoesOn frames.new at walk.uses (λ go us. after_leaf go (stacked frames.old walk.frames) us) (Some result) }
{
    if walk.frames == 0 {
        return ControlFlow::Break(walk.uses);
    }
    let newest = walk.frames - 1;
    let frame = Frame::at(frames, newest);
    let mut left = newest;
    if let Some(next) = frame.next() {
        next.put(frames, newest);
        left = walk.frames;
    }
    ControlFlow::Continue(Walk {
        at,
        holder: Some(frame.holder),
        around: frame.around,
        frames: left,
        uses: walk.uses,
    })
}

// The parts after the first wait in a frame; none where there is no room for it.
fn open_frame(
    frames: &mut Frames,
    first: Walk,
    at: usize,
    parts: usize,
) -> Option<ControlFlow<usize, Walk>>
    ensures { GoesOn frames.new first.at first.uses (λ go us. frame_opened go (walk_in frames.old us first) at parts) result }
{
    if first.frames >= MAX_FRAMES {
        return None;
    }
    let frame = Frame {
        holder: Holder { at, part: 1 },
        parts,
        around: first.around,
    };
    frame.put(frames, first.frames);
    let mut opened = first;
    opened.frames += 1;
    Some(ControlFlow::Continue(opened))
}

// After a node's head comes its first part, if it has one; the others wait in a frame.
fn advance(
    frames: &mut Frames,
    walk: Walk,
    node: Node,
    scope: Scope,
) -> Option<ControlFlow<usize, Walk>>
    ensures { GoesOn frames.new node.end walk.uses (λ go us. after_head go walk.at (kind_arity node.kind) (scope_told scope) (stacked frames.old walk.frames) us) result }
{
    let parts = arity(node.kind);
    if parts == 0 {
        return Some(next_part(frames, walk, node.end));
    }
    let first = Walk {
        at: node.end,
        holder: Some(Holder {
            at: walk.at,
            part: 0,
        }),
        around: scope,
        frames: walk.frames,
        uses: walk.uses,
    };
    if parts == 1 {
        return Some(ControlFlow::Continue(first));
    }
    open_frame(frames, first, walk.at, parts)
}

// One node of the walk; none where a use would be captured, or there is no way on.
fn visit_next<S: Source>(
    renaming: &Renaming<'_, S>,
    walk: Walk,
    frames: &mut Frames,
    list: &mut Slot,
) -> Option<ControlFlow<usize, Walk>>
    ensures { let bs = S.bytes renaming.now.program.now in Visits bs (spelled_in bs renaming.now.from) renaming.now.to.now frames.old list.old walk frames.new list.new result }
{
    let seen = see(renaming, walk)?;
    let mut noted = walk;
    noted.uses = note_use(list, walk.uses, walk.at + 1, seen.changes)?;
    advance(frames, noted, seen.node, seen.scope)
}

// From node to node, until the walk is over or stopped: how many uses are listed then.
fn walk_through<S: Source>(
    renaming: &Renaming<'_, S>,
    first: Walk,
    frames: &mut Frames,
    list: &mut Slot,
) -> Option<usize>
    ensures value { let bs = S.bytes renaming.now.program.now in count_told list.new result ≡ uses_from (length bs) bs (spelled_in bs renaming.now.from) renaming.now.to.now (walk_told frames.old list.old first) first.at }
    ensures few { IfSome result (λ n. n ≤ 8192) }
{
    let mut walk = first;
    // At most so many heads are read, as `uses_from` has it: no index is counted here.
    for _ in 0..renaming.program.len() {
        match visit_next(renaming, walk, frames, list)? {
            ControlFlow::Continue(next) => walk = next,
            ControlFlow::Break(count) => return Some(count),
        }
    }
    None
}

// Lists where the names stand that change if the binder with the old name is called by the new one, its own name first, and says how many there
// are; none where a use would be captured. The expression at `body` is what the binder gives its name to.
pub fn list_uses<S: Source>(
    renaming: &Renaming<'_, S>,
    body: usize,
    frames: &mut Frames,
    list: &mut Slot,
) -> Option<usize>
    ensures value { let bs = S.bytes renaming.now.program.now in count_told list.new result ≡ uses_of bs (spelled_in bs renaming.now.from) renaming.now.to.now (renaming.now.from.from - 8) body }
    ensures few { IfSome result (λ n. n ≤ 8192) }
{
    list[0] = renaming.from.from.saturating_sub(8) as u64;
    let first = Walk {
        at: body,
        holder: None,
        around: Scope::default(),
        frames: 0,
        uses: 1,
    };
    walk_through(renaming, first, frames, list)
}
