//! Where the files of a stopped list stand.

ghost use Rattle.std.specs.Prelude.{◌≡◌};
ghost use Rattle.seq_base.specs.StorePaths.{IsStorePath};
ghost use Rattle.state_text.specs.Places.{file_name as name_of_file, state_path as path_of_file};

use crate::state_file::StateFile;
use crate::verb::Verb;

/// The name of a file in its folder.
pub fn file_name(file: StateFile) -> &'static [u8]
    ensures { result.now ≡ name_of_file file }
{
    match file {
        StateFile::HeadName => b"head-name",
        StateFile::OrigHead => b"orig-head",
        StateFile::Onto => b"onto",
        StateFile::Interactive => b"interactive",
        StateFile::RebaseTodo => b"git-rebase-todo",
        StateFile::Backup => b"git-rebase-todo.backup",
        StateFile::Done => b"done",
        StateFile::Msgnum => b"msgnum",
        StateFile::End => b"end",
        StateFile::Message => b"message",
        StateFile::AuthorScript => b"author-script",
        StateFile::Amend => b"amend",
        StateFile::StoppedSha => b"stopped-sha",
        StateFile::CurrentFixups => b"current-fixups",
        StateFile::RewrittenList => b"rewritten-list",
        StateFile::RewrittenPending => b"rewritten-pending",
        StateFile::RefsToDelete => b"refs-to-delete",
        StateFile::UpdateRefs => b"update-refs",
        StateFile::Control => b"control",
        StateFile::Todo => b"todo",
        StateFile::Head => b"head",
        StateFile::AbortSafety => b"abort-safety",
        StateFile::Opts => b"opts",
        StateFile::MergeMsg => b"MERGE_MSG",
        StateFile::MergeHead => b"MERGE_HEAD",
        StateFile::RebaseHead => b"REBASE_HEAD",
        StateFile::CherryPickHead => b"CHERRY_PICK_HEAD",
        StateFile::RevertHead => b"REVERT_HEAD",
    }
}

/// Where a file of a rebase stands, or one beside.
fn rebase_path(file: StateFile) -> &'static [u8]
    ensures path { result.now ≡ path_of_file Verb.Rebase file }
    ensures store_path { IsStorePath result.now }
{
    match file {
        StateFile::HeadName => b".git/rebase-merge/head-name",
        StateFile::OrigHead => b".git/rebase-merge/orig-head",
        StateFile::Onto => b".git/rebase-merge/onto",
        StateFile::Interactive => b".git/rebase-merge/interactive",
        StateFile::RebaseTodo => b".git/rebase-merge/git-rebase-todo",
        StateFile::Backup => b".git/rebase-merge/git-rebase-todo.backup",
        StateFile::Done => b".git/rebase-merge/done",
        StateFile::Msgnum => b".git/rebase-merge/msgnum",
        StateFile::End => b".git/rebase-merge/end",
        StateFile::Message => b".git/rebase-merge/message",
        StateFile::AuthorScript => b".git/rebase-merge/author-script",
        StateFile::Amend => b".git/rebase-merge/amend",
        StateFile::StoppedSha => b".git/rebase-merge/stopped-sha",
        StateFile::CurrentFixups => b".git/rebase-merge/current-fixups",
        StateFile::RewrittenList => b".git/rebase-merge/rewritten-list",
        StateFile::RewrittenPending => b".git/rebase-merge/rewritten-pending",
        StateFile::RefsToDelete => b".git/rebase-merge/refs-to-delete",
        StateFile::UpdateRefs => b".git/rebase-merge/update-refs",
        StateFile::Control => b".git/rebase-merge/control",
        StateFile::Todo => b".git/rebase-merge/todo",
        StateFile::Head => b".git/rebase-merge/head",
        StateFile::AbortSafety => b".git/rebase-merge/abort-safety",
        StateFile::Opts => b".git/rebase-merge/opts",
        StateFile::MergeMsg => b".git/MERGE_MSG",
        StateFile::MergeHead => b".git/MERGE_HEAD",
        StateFile::RebaseHead => b".git/REBASE_HEAD",
        StateFile::CherryPickHead => b".git/CHERRY_PICK_HEAD",
        StateFile::RevertHead => b".git/REVERT_HEAD",
    }
}

/// Where a file of a cherry-pick or a revert stands, or one beside.
fn sequencer_path(file: StateFile) -> &'static [u8]
    ensures cherry_pick { result.now ≡ path_of_file Verb.CherryPick file }
    ensures revert { result.now ≡ path_of_file Verb.Revert file }
    ensures store_path { IsStorePath result.now }
{
    match file {
        StateFile::HeadName => b".git/sequencer/head-name",
        StateFile::OrigHead => b".git/sequencer/orig-head",
        StateFile::Onto => b".git/sequencer/onto",
        StateFile::Interactive => b".git/sequencer/interactive",
        StateFile::RebaseTodo => b".git/sequencer/git-rebase-todo",
        StateFile::Backup => b".git/sequencer/git-rebase-todo.backup",
        StateFile::Done => b".git/sequencer/done",
        StateFile::Msgnum => b".git/sequencer/msgnum",
        StateFile::End => b".git/sequencer/end",
        StateFile::Message => b".git/sequencer/message",
        StateFile::AuthorScript => b".git/sequencer/author-script",
        StateFile::Amend => b".git/sequencer/amend",
        StateFile::StoppedSha => b".git/sequencer/stopped-sha",
        StateFile::CurrentFixups => b".git/sequencer/current-fixups",
        StateFile::RewrittenList => b".git/sequencer/rewritten-list",
        StateFile::RewrittenPending => b".git/sequencer/rewritten-pending",
        StateFile::RefsToDelete => b".git/sequencer/refs-to-delete",
        StateFile::UpdateRefs => b".git/sequencer/update-refs",
        StateFile::Control => b".git/sequencer/control",
        StateFile::Todo => b".git/sequencer/todo",
        StateFile::Head => b".git/sequencer/head",
        StateFile::AbortSafety => b".git/sequencer/abort-safety",
        StateFile::Opts => b".git/sequencer/opts",
        StateFile::MergeMsg => b".git/MERGE_MSG",
        StateFile::MergeHead => b".git/MERGE_HEAD",
        StateFile::RebaseHead => b".git/REBASE_HEAD",
        StateFile::CherryPickHead => b".git/CHERRY_PICK_HEAD",
        StateFile::RevertHead => b".git/REVERT_HEAD",
    }
}

/// Where a file of a stopped list stands.
pub fn state_path(verb: Verb, file: StateFile) -> &'static [u8]
    ensures path { result.now ≡ path_of_file verb file }
    ensures store_path { IsStorePath result.now }
{
    match verb {
        Verb::Rebase => rebase_path(file),
        Verb::CherryPick | Verb::Revert => sequencer_path(file),
    }
}
