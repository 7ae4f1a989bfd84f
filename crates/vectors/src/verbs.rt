//! The verbs.

use crate::{configs, formats, idents, index, maps, messages, names, object_forms, refs, todo};
use cases::{Case, CaseFault, Verbs};

/// The verbs of the crates of formats.
pub struct FormatVerbs;

impl Verbs for FormatVerbs {
    fn answer(&self, verb: &str, case: &mut Case<'_>) -> Result<bool, CaseFault> {
        Ok(
            of_values(verb, case)?
                || of_objects(verb, case)?
                || of_repositories(verb, case)?
                || of_sequences(verb, case)?,
        )
    }
}

/// The crates grammar and seq_base.
fn of_values(verb: &str, case: &mut Case<'_>) -> Result<bool, CaseFault> {
    match verb {
        "minor" => formats::minor(case)?,
        "decimal" => formats::decimal(case)?,
        "line-of-place" => formats::line(case)?,
        "bytes-order" => names::bytes_order(case)?,
        "id" => names::id(case)?,
        "id-order" => names::id_order(case)?,
        "mode" => names::mode(case)?,
        "path" => names::path(case)?,
        "path-order" => names::path_order(case)?,
        "ref-name" => names::ref_name(case)?,
        "store-path" => names::store_path(case)?,
        "path-map" => maps::path_map(case)?,
        "path-map-get" => maps::path_map_get(case)?,
        _ => return Ok(false),
    }
    Ok(true)
}

/// The crates object_text and ident_text.
fn of_objects(verb: &str, case: &mut Case<'_>) -> Result<bool, CaseFault> {
    match verb {
        "object-text" => object_forms::text(case)?,
        "object-header" => object_forms::header(case)?,
        "object" => object_forms::object(case)?,
        "tree" => object_forms::tree(case)?,
        "tree-again" => object_forms::tree_again(case)?,
        "commit" => object_forms::commit(case)?,
        "tag" => object_forms::tagged(case)?,
        "commit-again" => object_forms::commit_again(case)?,
        "ident" => idents::ident(case)?,
        "author-script-of" => idents::script_of(case)?,
        "author-script" => idents::script(case)?,
        _ => return Ok(false),
    }
    Ok(true)
}

/// The crates ref_text, index_file and config_text.
fn of_repositories(verb: &str, case: &mut Case<'_>) -> Result<bool, CaseFault> {
    match verb {
        "head" => refs::head(case)?,
        "head-on" => refs::head_on(case)?,
        "head-at" => refs::head_at(case)?,
        "loose" => refs::loose(case)?,
        "packed" => refs::packed(case)?,
        "packed-again" => refs::packed_again(case)?,
        "log" => refs::log(case)?,
        "log-first-line" => refs::first_log_line(case)?,
        "index" => index::index(case)?,
        "index-again" => index::index_again(case)?,
        "config" => configs::settings(case)?,
        "config-value" => configs::last_value(case)?,
        _ => return Ok(false),
    }
    Ok(true)
}

/// The crates todo_text and message_text.
fn of_sequences(verb: &str, case: &mut Case<'_>) -> Result<bool, CaseFault> {
    match verb {
        "todo" => todo::lines(case)?,
        "todo-again" => todo::again(case)?,
        "todo-many" => todo::many(case)?,
        "clean" => messages::cleaned(case)?,
        "subject" => messages::subject_of(case)?,
        "chain" => messages::chain(case)?,
        "kept" => messages::kept(case)?,
        "picked" => messages::picked(case)?,
        "reverted" => messages::reverted(case)?,
        _ => return Ok(false),
    }
    Ok(true)
}
