//! The verbs.

use crate::{attributes, children, graphs, merges, outcomes, plans, stages};
use cases::{Case, CaseFault, Verbs};

/// The verbs of the crates that decide.
pub struct DecisionVerbs;

impl Verbs for DecisionVerbs {
    fn answer(&self, verb: &str, case: &mut Case<'_>) -> Result<bool, CaseFault> {
        Ok(
            of_stages(verb, case)?
                || of_merges(verb, case)?
                || of_plans(verb, case)?
                || of_words(verb, case)?
                || of_children(verb, case)?,
        )
    }
}

/// The crate stage_index.
fn of_stages(verb: &str, case: &mut Case<'_>) -> Result<bool, CaseFault> {
    match verb {
        "unmerged" => stages::unmerged_paths(case)?,
        "to-map" => stages::map_of_index(case)?,
        "index-of-map" => stages::index_of_map(case)?,
        "staged-path" => stages::staged(case)?,
        "tracked" => stages::is_tracked(case)?,
        "set-stages" => stages::with_stages(case)?,
        _ => return Ok(false),
    }
    Ok(true)
}

/// The crates tree_merge, merge_base and history.
fn of_merges(verb: &str, case: &mut Case<'_>) -> Result<bool, CaseFault> {
    match verb {
        "merge-path" => merges::one_path(case)?,
        "merge-plan" => merges::plan_of(case)?,
        "merge-maps" => merges::merge(case)?,
        "merge-bases" => graphs::merge_bases(case)?,
        "reached" => graphs::reached(case)?,
        "merge-bases-of-chain" => graphs::chain(case)?,
        "range" => graphs::range_of(case)?,
        _ => return Ok(false),
    }
    Ok(true)
}

/// The crate todo_plan.
fn of_plans(verb: &str, case: &mut Case<'_>) -> Result<bool, CaseFault> {
    match verb {
        "plan-linear" => plans::linear(case)?,
        "autosquash" => plans::squashes(case)?,
        "plan-merges" => plans::merges(case)?,
        "add-exec" => plans::execs(case)?,
        "add-update-refs" => plans::update_refs(case)?,
        _ => return Ok(false),
    }
    Ok(true)
}

/// The crates attr_rules and report_text.
fn of_words(verb: &str, case: &mut Case<'_>) -> Result<bool, CaseFault> {
    match verb {
        "pattern" => attributes::fits(case)?,
        "rules" => attributes::rules(case)?,
        "merge-attribute" => attributes::merge(case)?,
        "report" => outcomes::report_of(case)?,
        "outcome-paths" => outcomes::kept_paths(case)?,
        _ => return Ok(false),
    }
    Ok(true)
}

/// The crates child_jobs and driver_pool.
fn of_children(verb: &str, case: &mut Case<'_>) -> Result<bool, CaseFault> {
    match verb {
        "exec-job" => children::exec(case)?,
        "editor-job" => children::edit(case)?,
        "hook-job" => children::hook(case)?,
        "editor" => children::editor_set(case)?,
        "driver-command" => children::driver(case)?,
        _ => return Ok(false),
    }
    Ok(true)
}
