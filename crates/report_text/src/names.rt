//! The names of outcomes, in lower case.

ghost use Rattle.std.specs.Prelude.{◌≡◌};
ghost use Rattle.seq_model.specs.LimitWhats.{limit_what_name as limit_what_name_of};
ghost use Rattle.seq_model.specs.TodoKinds.{todo_kind_name as todo_kind_name_of};
ghost use Rattle.seq_model.specs.UsageFaults.{usage_fault_name as usage_fault_name_of};
ghost use Rattle.seq_model.specs.Reasons.{reason_name as reason_name_of};
ghost use Rattle.seq_model.specs.StopKinds.{stop_kind_name as stop_kind_name_of};

use seq_model::{LimitWhat, Reason, StopKind, TodoKind, UsageFault};

pub fn limit_what_name(value: LimitWhat) -> &'static [u8]
    ensures { result.now ≡ limit_what_name_of value }
{
    match value {
        LimitWhat::ObjectBytes => b"object-bytes".as_slice(),
        LimitWhat::TreeDepth => b"tree-depth".as_slice(),
        LimitWhat::IndexEntries => b"index-entries".as_slice(),
        LimitWhat::TodoLines => b"todo-lines".as_slice(),
        LimitWhat::TodoBytes => b"todo-bytes".as_slice(),
        LimitWhat::Labels => b"labels".as_slice(),
        LimitWhat::Parents => b"parents".as_slice(),
        LimitWhat::Commits => b"commits".as_slice(),
        LimitWhat::Jobs => b"jobs".as_slice(),
    }
}

pub fn todo_kind_name(value: TodoKind) -> &'static [u8]
    ensures { result.now ≡ todo_kind_name_of value }
{
    match value {
        TodoKind::Command => b"command".as_slice(),
        TodoKind::Missing => b"missing".as_slice(),
        TodoKind::Extra => b"extra".as_slice(),
        TodoKind::Label => b"label".as_slice(),
        TodoKind::RefName => b"ref-name".as_slice(),
        TodoKind::Octopus => b"octopus".as_slice(),
        TodoKind::NoEarlier => b"no-earlier".as_slice(),
        TodoKind::NoSuchCommit => b"no-such-commit".as_slice(),
        TodoKind::MergePicked => b"merge-picked".as_slice(),
        TodoKind::OwnBranch => b"own-branch".as_slice(),
        TodoKind::NotBuilt => b"not-built".as_slice(),
    }
}

pub fn usage_fault_name(value: &UsageFault) -> &'static [u8]
    ensures { result.now ≡ usage_fault_name_of value.now }
{
    match value {
        UsageFault::NoVerb => b"no-verb".as_slice(),
        UsageFault::UnknownVerb { .. } => b"unknown-verb".as_slice(),
        UsageFault::Parse => b"parse".as_slice(),
        UsageFault::Value { .. } => b"value".as_slice(),
        UsageFault::Missing => b"missing".as_slice(),
        UsageFault::Pair { .. } => b"pair".as_slice(),
    }
}

pub fn reason_name(value: &Reason) -> &'static [u8]
    ensures { result.now ≡ reason_name_of value.now }
{
    match value {
        Reason::WouldOverwrite { .. } => b"would-overwrite".as_slice(),
        Reason::BadName { .. } => b"bad-name".as_slice(),
        Reason::NoBase => b"no-base".as_slice(),
        Reason::SeveralBases { .. } => b"several-bases".as_slice(),
        Reason::BadObject { .. } => b"bad-object".as_slice(),
        Reason::BadHead => b"bad-head".as_slice(),
        Reason::BadIndex => b"bad-index".as_slice(),
        Reason::HeadMoved { .. } => b"head-moved".as_slice(),
        Reason::Dirty { .. } => b"dirty".as_slice(),
        Reason::Limit { .. } => b"limit".as_slice(),
    }
}

pub fn stop_kind_name(value: &StopKind) -> &'static [u8]
    ensures { result.now ≡ stop_kind_name_of value.now }
{
    match value {
        StopKind::Conflict => b"conflict".as_slice(),
        StopKind::Edit => b"edit".as_slice(),
        StopKind::Break => b"break".as_slice(),
        StopKind::ExecFailed { .. } => b"exec-failed".as_slice(),
        StopKind::ExecDirty { .. } => b"exec-dirty".as_slice(),
        StopKind::Empty { .. } => b"empty".as_slice(),
        StopKind::HookRefused { .. } => b"hook-refused".as_slice(),
        StopKind::EditorFailed { .. } => b"editor-failed".as_slice(),
        StopKind::EmptyMessage => b"empty-message".as_slice(),
        StopKind::DriverBroken { .. } => b"driver-broken".as_slice(),
        StopKind::Blocked(_) => b"blocked".as_slice(),
        StopKind::TodoBad { .. } => b"todo-bad".as_slice(),
        StopKind::RefMoved { .. } => b"ref-moved".as_slice(),
    }
}
