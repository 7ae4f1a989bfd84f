//! What holds of three-way merges whatever the entries. The functions do nothing: their contracts are the laws.

ghost use Rattle.std.specs.Prelude.{◌≡◌, ◌↔◌, IsTrue};
ghost use Rattle.tree_merge.specs.declared.rules.Choice.TheVariants.{Take};
ghost use Rattle.seq_base.specs.PathMaps.{AreApart, IsPathMap, same_entry};
ghost use Rattle.tree_merge.specs.Choosing.{choice};
ghost use Rattle.tree_merge.specs.Plans.{Entries, plan_of};
ghost use Rattle.tree_merge.specs.Results.{HasNoClash, result_of};

use seq_base::Entry;

/// Entries are told apart exactly by what they are.
pub fn sameness_is_equality(a: Option<Entry>, b: Option<Entry>)
    ensures { IsTrue (same_entry a b) ↔ (a ≡ b) }
{}

/// Where one side left the base as it was, what the other side has is taken.
#[tactic(auto, using(crate::proofs::Sameness::choice_theirs, crate::proofs::Sameness::choice_swap))]
pub fn an_unchanged_side_yields(base: Option<Entry>, changed: Option<Entry>)
    ensures theirs { choice base base changed ≡ Take changed }
    ensures ours { choice base changed base ≡ Take changed }
{}

/// An entry is taken exactly where it is taken with the sides exchanged.
pub fn sides_can_be_exchanged(
    base: Option<Entry>,
    ours: Option<Entry>,
    theirs: Option<Entry>,
    taken: Option<Entry>,
)
    ensures { (choice base ours theirs ≡ Take taken) ↔ (choice base theirs ours ≡ Take taken) }
{}

/// Where no path of a plan clashes, no path of the merge's result lies below another.
pub fn results_without_clash_are_apart()
    ensures { (b o t : Entries) → IsPathMap b → IsPathMap o → IsPathMap t → HasNoClash (plan_of b o t) → AreApart (result_of b o t) }
{}
