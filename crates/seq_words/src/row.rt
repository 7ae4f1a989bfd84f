//! What may stand behind each verb.

ghost use Rattle.std.specs.Prelude.{◌≡◌, map, option_map};
ghost use Rattle.std.specs.List.{find};
ghost use Rattle.std.specs.Str.{bytes_eq};
ghost use Rattle.seq_model.specs.Rows.{is_argument as is_argument_of, is_flag as is_flag_of, is_needed as is_needed_of, is_repeated as is_repeated_of};
ghost use Rattle.seq_words.specs.Rows.{row_of, rows_of};

use seq_model::Form;

/// One of the words that may stand behind a verb, or the name of its argument.
#[derive(Clone, Copy)]
pub struct Row {
    pub name: &'static str,
    pub form: Form,
}

macro_rules! rows {
    ($($name:literal $form:ident,)*) => {
        [$(Row { name: $name, form: Form::$form }),*]
    };
}

pub static REBASE: [Row; 15] = rows![
    "--continue" Action,
    "--skip" Action,
    "--abort" Action,
    "--quit" Action,
    "--edit-todo" Action,
    "-i" Flag,
    "--rebase-merges" Flag,
    "--onto" Name,
    "--no-ff" Flag,
    "--empty" Empty,
    "--autosquash" Flag,
    "--update-refs" Flag,
    "-x" Shell,
    "--reschedule-failed-exec" Flag,
    "UPSTREAM" One,
];

pub static CHERRY_PICK: [Row; 12] = rows![
    "--continue" Action,
    "--skip" Action,
    "--abort" Action,
    "--quit" Action,
    "-e" Flag,
    "-x" Flag,
    "-m" Number,
    "--allow-empty" Flag,
    "--keep-redundant-commits" Flag,
    "--empty" Empty,
    "--no-edit" Flag,
    "REV" Many,
];

pub static REVERT: [Row; 8] = rows![
    "--continue" Action,
    "--skip" Action,
    "--abort" Action,
    "--quit" Action,
    "-e" Flag,
    "-m" Number,
    "--no-edit" Flag,
    "REV" Many,
];

pub static PATHS: [Row; 1] = rows![
    "PATH" Many,
];

pub static COMMIT: [Row; 2] = rows![
    "--amend" Flag,
    "-m" Text,
];

pub static CAT: [Row; 1] = rows![
    "HEX" One,
];

pub fn is_flag(form: Form) -> bool
    ensures { result ≡ is_flag_of form }
{
    match form {
        Form::Action | Form::Flag => true,
        Form::Name | Form::Empty | Form::Number | Form::Shell => false,
        Form::Text | Form::One | Form::Many => false,
    }
}

fn is_argument(form: Form) -> bool
    ensures { result ≡ is_argument_of form }
{
    form == Form::One || form == Form::Many
}

pub fn is_repeated(form: Form) -> bool
    ensures { result ≡ is_repeated_of form }
{
    form == Form::Shell || form == Form::Many
}

pub fn is_needed(form: Form) -> bool
    ensures { result ≡ is_needed_of form }
{
    form == Form::Text || form == Form::One || form == Form::Many
}

/// The row of this name.
pub fn row_named(rows: &[Row], name: &[u8]) -> Option<Row>
    ensures { option_map row_of result ≡ find (λ row. bytes_eq row.name name.now) (rows_of rows.now) }
{
    let mut rest = rows;
    while let [row, after @ ..] = rest {
        if row.name.as_bytes() == name {
            return Some(*row);
        }
        rest = after;
    }
    None
}

/// The row of the argument.
pub fn argument_row(rows: &[Row]) -> Option<Row>
    ensures { option_map row_of result ≡ find (λ row. is_argument_of row.form) (rows_of rows.now) }
{
    let mut rest = rows;
    while let [row, after @ ..] = rest {
        if is_argument(row.form) {
            return Some(*row);
        }
        rest = after;
    }
    None
}
