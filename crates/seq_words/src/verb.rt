//! The verbs, and the rows of each.

ghost use Rattle.std.specs.Prelude.{◌≡◌};
ghost use Rattle.seq_model.specs.Rows.{cat_rows, cherry_pick_rows, commit_rows, paths_rows, rebase_rows, revert_rows};
ghost use Rattle.seq_words.specs.Rows.{rows_of};
ghost use Rattle.seq_words.specs.VerbWords.{rows_for};

use crate::row::{CAT, CHERRY_PICK, COMMIT, PATHS, REBASE, REVERT, Row};

/// The first word of the command line.
#[derive(Clone, Copy)]
pub enum VerbWord {
    Rebase,
    CherryPick,
    Revert,
    Init,
    Add,
    Rm,
    Commit,
    Status,
    Cat,
}

fn rebase_table() -> &'static [Row]
    ensures { rows_of result.now ≡ rebase_rows }
{
    &REBASE
}

fn cherry_pick_table() -> &'static [Row]
    ensures { rows_of result.now ≡ cherry_pick_rows }
{
    &CHERRY_PICK
}

fn revert_table() -> &'static [Row]
    ensures { rows_of result.now ≡ revert_rows }
{
    &REVERT
}

fn paths_table() -> &'static [Row]
    ensures { rows_of result.now ≡ paths_rows }
{
    &PATHS
}

fn commit_table() -> &'static [Row]
    ensures { rows_of result.now ≡ commit_rows }
{
    &COMMIT
}

fn cat_table() -> &'static [Row]
    ensures { rows_of result.now ≡ cat_rows }
{
    &CAT
}

/// What may stand behind the verb.
pub fn table(verb: VerbWord) -> &'static [Row]
    ensures { rows_of result.now ≡ rows_for verb }
{
    match verb {
        VerbWord::Rebase => rebase_table(),
        VerbWord::CherryPick => cherry_pick_table(),
        VerbWord::Revert => revert_table(),
        VerbWord::Init | VerbWord::Status => &[],
        VerbWord::Add | VerbWord::Rm => paths_table(),
        VerbWord::Commit => commit_table(),
        VerbWord::Cat => cat_table(),
    }
}
