//! What `clap` holds of plain words.

ghost use Rattle.std.specs.Prelude.{◌≡◌, List, [], map, option_map, unwrap_or};
ghost use Rattle.seq_model.specs.Commands.{action_given as action_given_in, values_given as values_given_in};
ghost use Rattle.seq_model.specs.Given.{Given, is_given as is_given_in};
ghost use Rattle.seq_words.specs.Told.{Holds};

use clap::ArgMatches;
use seq_model::Action;

#[tactic(auto, using(crate::proofs::Kept::held_words))]
pub fn is_given(m: &ArgMatches, name: &str) -> bool
    ensures { (all : List Given) → Holds m.now all → result ≡ is_given_in all name.now }
{
    m.contains_id(name)
}

/// The values, in the order given, where there are some.
#[tactic(auto, using(crate::proofs::Kept::held_words))]
pub fn texts_given<'m, 'a>(m: &'m ArgMatches<'a>, name: &str) -> Option<&'m [&'a str]>
    ensures { (all : List Given) → Holds m.now all
        → unwrap_or (option_map (λ texts. map (λ text. text.now) texts.now) result) [] ≡ values_given_in all name.now }
{
    m.get_strs(name)
}

pub fn action_given(m: &ArgMatches) -> Option<Action>
    ensures { (all : List Given) → Holds m.now all → result ≡ action_given_in all }
{
    if is_given(m, "--continue") {
        Some(Action::Continue)
    } else if is_given(m, "--skip") {
        Some(Action::Skip)
    } else if is_given(m, "--abort") {
        Some(Action::Abort)
    } else if is_given(m, "--quit") {
        Some(Action::Quit)
    } else if is_given(m, "--edit-todo") {
        Some(Action::EditTodo)
    } else {
        None
    }
}
