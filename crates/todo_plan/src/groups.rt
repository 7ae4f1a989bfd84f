//! Groups of lines: a pick or a merge, and what belongs to it.

ghost use Rattle.std.specs.Prelude.{◌≡◌};
ghost use Rattle.todo_plan.specs.Groups.{begins, goes_on, is_pick, is_squash};

use todo_text::{Line, PickKind};

/// Whether a line with this word picks a commit, and does no more.
pub(crate) fn is_pick(kind: PickKind) -> bool
    ensures { result ≡ is_pick kind }
{
    matches!(kind, PickKind::Pick)
}

fn is_squash(kind: PickKind) -> bool
    ensures { result ≡ is_squash kind }
{
    match kind {
        PickKind::Squash | PickKind::Fixup | PickKind::FixupKeep | PickKind::FixupEdit => true,
        PickKind::Pick | PickKind::Reword | PickKind::Edit | PickKind::Drop | PickKind::Revert =>
            false,
    }
}

/// Whether a line begins a group: a pick or a merge.
pub(crate) fn begins(line: &Line) -> bool
    ensures { result ≡ begins line.now }
{
    match line {
        Line::Pick { kind, .. } => is_pick(*kind),
        Line::Merge { .. } => true,
        _ => false,
    }
}

/// Whether a line goes on with the group before it: a squash, fixup or update-ref line.
pub(crate) fn goes_on(line: &Line) -> bool
    ensures { result ≡ goes_on line.now }
{
    match line {
        Line::Pick { kind, .. } => is_squash(*kind),
        Line::UpdateRef { .. } => true,
        _ => false,
    }
}
