//! The commit that is still to be made, by the files that tell of it.

ghost use Rattle.std.specs.Prelude.{◌≡◌, is_some};
ghost use Rattle.state_found.specs.Recalled.{form_of as form_of_by, is_told as is_told_by, not_amend as not_amend_by, pending_of as pending_of_by, told_edit as told_edit_by, told_form as told_form_by};

use ident_text::Ident;
use seq_base::{Bytes, Id};
use state_reading::Settings;
use state_text::{Form, Pending};

pub fn told_form(told: &Option<(Form, bool)>) -> Form
    ensures { result ≡ told_form_by told.now }
{
    match told {
        Some(told) => told.0,
        None => Form::New,
    }
}

fn told_edit(told: &Option<(Form, bool)>) -> bool
    ensures { result ≡ told_edit_by told.now }
{
    match told {
        Some(told) => told.1,
        None => false,
    }
}

fn not_amend(form: Form) -> Form
    ensures { result ≡ not_amend_by form }
{
    match form {
        Form::New | Form::Amend => Form::New,
        Form::Merge(other) => Form::Merge(other),
    }
}

/// The file `amend` tells that the commit takes the place of another, and no other file does.
pub fn form_of(amend: Option<Id>, form: Form) -> Form
    ensures { result ≡ form_of_by amend form }
{
    match amend {
        Some(_) => Form::Amend,
        None => not_amend(form),
    }
}

/// Whether some file tells of it.
pub fn is_told(message: &[u8], author: &Option<Ident>, told: bool) -> bool
    ensures { result ≡ is_told_by message.now author.now told }
{
    !message.is_empty() || author.is_some() || told
}

pub fn is_some_told(told: &Option<(Form, bool)>) -> bool
    ensures { result ≡ is_some told.now }
{
    match told {
        Some(_) => true,
        None => false,
    }
}

pub fn pending_of(
    there: bool,
    form: Form,
    message: Bytes,
    author: Option<Ident>,
    told: Settings,
) -> Option<Pending>
    ensures { result ≡ pending_of_by there form message author told }
{
    if !there {
        return None;
    }
    Some(Pending {
        form,
        edit: told_edit(&told.pending),
        author,
        encoding: told.encoding,
        message,
    })
}
