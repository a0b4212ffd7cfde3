// The program with the new name wherever it changes, written into the build area.
ghost use Rattle.std.specs.Prelude.{◌≡◌, ◌≤◌, IfSome};
ghost use Rattle.expr.specs.Token.{spelled_in};
ghost use Rattle.language.specs.Splice.{names_replaced};
ghost use Rattle.scope.specs.Splicing.{Replaced};

use crate::renaming::Renaming;
use expr::source::Source;
use expr::token::Span;
use memory::build::Writer;
use memory::layout::Slot;

// The program with the new name at each of the places, in the area, with zeros behind: how many bytes it has; none where there are too many.
pub fn write_renamed<S: Source>(
    renaming: &Renaming<'_, S>,
    uses: &[u64],
    area: &mut Slot,
) -> Option<usize>
    ensures value { let bs = S.bytes renaming.now.program.now in Replaced (names_replaced bs (spelled_in bs renaming.now.from) renaming.now.to.now uses.now) result area.new }
    ensures short { IfSome result (λ len. len ≤ 65536) }
{
    let len = renaming.program.len();
    let width = renaming.from.within(len).len();
    let mut writer = Writer::begin(area);
    let mut from = 0;
    for at in uses {
        let to = *at as usize;
        writer.append(renaming.program, Span { from, to })?;
        writer.append_name(renaming.to)?;
        // A name has its length before it.
        from = to.saturating_add(8).saturating_add(width);
    }
    writer.append(renaming.program, Span { from, to: len })?;
    Some(writer.finish())
}
