//! The checks of a start that stand before its own children, and the todo that it generates.

ghost use Rattle.std.specs.Prelude.{◌≡◌, ◌++◌, ◌∷◌, ◌==◌, [], All, None, Ok, IfOk, IsErrOf, OnOk, not, option_map, true, unwrap_or};
ghost use Rattle.std.specs.List.{list_all};
ghost use Rattle.history.specs.Laws.{IsHistory, IsRange};
ghost use Rattle.history.specs.Loads.{loaded};
ghost use Rattle.index_file.specs.Entries.{IsInOrder, IsIndex};
ghost use Rattle.merge_base.specs.Graphs.{HasPlainSubjects, first_missing};
ghost use Rattle.ref_text.specs.Heads.{IsHeadValue};
ghost use Rattle.ref_text.specs.Logs.{IsMessage};
ghost use Rattle.seq_base.specs.StorePaths.{IsStorePath};
ghost use Rattle.seq_base.specs.World.{World};
ghost use Rattle.seq_model.specs.Refusing.{denied_file};
ghost use Rattle.seq_outside.specs.Halts.{Gives, for_reason, halt_cause};
ghost use Rattle.seq_outside.specs.Seen.{Reads};
ghost use Rattle.seq_start.specs.Checks.{are_rebase_options as are_rebase_options_of, branch_of as branch_of_head, checked_as, checked_at};
ghost use Rattle.seq_start.specs.Checks.{checked_from, checked_in, checked_with, clean_for, commits_of, control_of as control_for, editor_asked};
ghost use Rattle.seq_start.specs.Checks.{generated as generated_in, is_built as is_built_by, is_command as is_command_text, is_idle};
ghost use Rattle.seq_start.specs.Checks.{is_rebase as is_rebase_verb, lacks_file, lacks_folder, lacks_options as lacks_options_of, no_head, no_list};
ghost use Rattle.seq_start.specs.Checks.{no_mailbox, no_merge, no_pick, no_rebase, no_revert, no_sequence, onto_by, todo_at as todo_at_tip, todo_by};
ghost use Rattle.seq_start.specs.Checks.{todo_for as todo_of_list, upstream_in, upstream_of};
ghost use Rattle.seq_start.specs.Plans.{IsChecked};
ghost use Rattle.todo_plan.specs.Groups.{with_execs};
ghost use Rattle.todo_plan.specs.Linear.{linear_todo};
ghost use Rattle.todo_text.specs.Spells.{IsSpelled, canonical};
ghost use Rattle.todo_text.specs.Todos.{todo_text};

use child_jobs::editor;
use config_text::Config;
use history::{load, range};
use index_file::IndexEntry;
use merge_base::Graph;
use reading::Checked;
use ref_text::Head;
use seq_base::{Bytes, Id, is_blank};
use seq_model::{Denial, Place, Refusal, StartWords, refused};
use seq_outside::{Env, Halt, Store};
use seq_pick::clean_map;
use start_checks::{
    Basis, born, commit_by, committer, file_halt, read_basis, want_merged, want_repository,
};
use state_text::{
    Chain, Control, IdPairs, Ids, Labels, Left, Lines, Options, RefUpdates, StopWord, Verb,
};
use std::alloc::{AllocError, Global};
use todo_plan::{add_exec, plan_linear};
use todo_text::{Line, line_text};

// ---- no other command is in progress

fn in_progress(alloc: Global, path: &[u8]) -> Result<Halt<Denial>, AllocError>
    ensures { IfOk result (λ halt. halt ≡ Halt.Stops (Denial.Refused (Refusal.InProgress path.now))) }
{
    let path = Bytes::from_vec(path.to_vec(alloc)?);
    Ok(refused(Refusal::InProgress { path }))
}

#[tactic(auto, unfolding(crate::specs::Checks::lacks_folder))]
fn want_no_folder<S: Store>(alloc: Global, folder: &[u8], store: &mut S) -> Result<(), Halt<Denial>>
    requires { IsStorePath folder.now }
    ensures gives { S.told → Gives (λ x. x) result (lacks_folder (S.seen store.old).content folder.now) }
    ensures reads { Reads S.told halt_cause result (S.seen store.old) (S.seen store.new) }
{
    let files = store.list(alloc, folder)?;
    if files.is_empty() {
        return Ok(());
    }
    Err(in_progress(alloc, folder)?)
}

#[tactic(auto, unfolding(crate::specs::Checks::lacks_file))]
fn want_no_file<S: Store>(alloc: Global, path: &[u8], store: &mut S) -> Result<(), Halt<Denial>>
    requires { IsStorePath path.now }
    ensures gives { S.told → Gives (λ x. x) result (lacks_file (S.seen store.old).content path.now) }
    ensures reads { Reads S.told halt_cause result (S.seen store.old) (S.seen store.new) }
{
    match store.get(alloc, path)? {
        Some(_) => Err(in_progress(alloc, path)?),
        None => Ok(()),
    }
}

#[tactic(auto, unfolding(crate::specs::Checks::no_rebase))]
fn want_no_rebase<S: Store>(alloc: Global, store: &mut S) -> Result<(), Halt<Denial>>
    ensures gives { S.told → Gives (λ x. x) result (no_rebase (S.seen store.old).content) }
    ensures reads { Reads S.told halt_cause result (S.seen store.old) (S.seen store.new) }
{
    want_no_folder(alloc, b".git/rebase-merge", store)
}

#[tactic(auto, unfolding(crate::specs::Checks::no_sequence))]
fn want_no_sequence<S: Store>(alloc: Global, store: &mut S) -> Result<(), Halt<Denial>>
    ensures gives { S.told → Gives (λ x. x) result (no_sequence (S.seen store.old).content) }
    ensures reads { Reads S.told halt_cause result (S.seen store.old) (S.seen store.new) }
{
    want_no_folder(alloc, b".git/sequencer", store)
}

#[tactic(auto, unfolding(crate::specs::Checks::no_mailbox))]
fn want_no_mailbox<S: Store>(alloc: Global, store: &mut S) -> Result<(), Halt<Denial>>
    ensures gives { S.told → Gives (λ x. x) result (no_mailbox (S.seen store.old).content) }
    ensures reads { Reads S.told halt_cause result (S.seen store.old) (S.seen store.new) }
{
    want_no_folder(alloc, b".git/rebase-apply", store)
}

#[tactic(auto, unfolding(crate::specs::Checks::no_pick))]
fn want_no_pick<S: Store>(alloc: Global, store: &mut S) -> Result<(), Halt<Denial>>
    ensures gives { S.told → Gives (λ x. x) result (no_pick (S.seen store.old).content) }
    ensures reads { Reads S.told halt_cause result (S.seen store.old) (S.seen store.new) }
{
    want_no_file(alloc, b".git/CHERRY_PICK_HEAD", store)
}

#[tactic(auto, unfolding(crate::specs::Checks::no_revert))]
fn want_no_revert<S: Store>(alloc: Global, store: &mut S) -> Result<(), Halt<Denial>>
    ensures gives { S.told → Gives (λ x. x) result (no_revert (S.seen store.old).content) }
    ensures reads { Reads S.told halt_cause result (S.seen store.old) (S.seen store.new) }
{
    want_no_file(alloc, b".git/REVERT_HEAD", store)
}

#[tactic(auto, unfolding(crate::specs::Checks::no_merge))]
fn want_no_merge<S: Store>(alloc: Global, store: &mut S) -> Result<(), Halt<Denial>>
    ensures gives { S.told → Gives (λ x. x) result (no_merge (S.seen store.old).content) }
    ensures reads { Reads S.told halt_cause result (S.seen store.old) (S.seen store.new) }
{
    want_no_file(alloc, b".git/MERGE_HEAD", store)
}

/// No list is stopped.
#[tactic(auto, unfolding(crate::specs::Checks::no_list))]
fn want_no_list<S: Store>(alloc: Global, store: &mut S) -> Result<(), Halt<Denial>>
    ensures gives { S.told → Gives (λ x. x) result (no_list (S.seen store.old).content) }
    ensures reads { Reads S.told halt_cause result (S.seen store.old) (S.seen store.new) }
{
    want_no_rebase(alloc, store)?;
    want_no_sequence(alloc, store)?;
    want_no_mailbox(alloc, store)
}

/// No command has left what it was at.
#[tactic(auto, unfolding(crate::specs::Checks::no_head))]
fn want_no_head<S: Store>(alloc: Global, store: &mut S) -> Result<(), Halt<Denial>>
    ensures gives { S.told → Gives (λ x. x) result (no_head (S.seen store.old).content) }
    ensures reads { Reads S.told halt_cause result (S.seen store.old) (S.seen store.new) }
{
    want_no_pick(alloc, store)?;
    want_no_revert(alloc, store)?;
    want_no_merge(alloc, store)
}

/// No other command is in progress.
#[tactic(auto, unfolding(crate::specs::Checks::is_idle))]
fn want_idle<S: Store>(alloc: Global, store: &mut S) -> Result<(), Halt<Denial>>
    ensures gives { S.told → Gives (λ x. x) result (is_idle (S.seen store.old).content) }
    ensures reads { Reads S.told halt_cause result (S.seen store.old) (S.seen store.new) }
{
    want_no_list(alloc, store)?;
    want_no_head(alloc, store)
}

// ---- the todo that is generated

fn push_line(alloc: Global, text: &mut Vec<u8>, line: &Line) -> Result<(), AllocError>
    requires { IsSpelled line.now }
    ensures { OnOk result (text.new.items ≡ text.old.items ++ canonical line.now) }
{
    let more = line_text(alloc, line)?;
    text.extend_from_slice(more.as_slice())
}

/// The text of a todo.
fn todo_of(alloc: Global, lines: &[Line]) -> Result<Bytes, AllocError>
    requires { All IsSpelled lines.now }
    ensures { IfOk result (λ text. text ≡ todo_text lines.now) }
{
    let mut text = Vec::new(alloc);
    for line in lines {
        push_line(alloc, &mut text, line)?;
    }
    Ok(Bytes::from_vec(text))
}

/// The history of the upstream and of HEAD's commit.
fn load_both<S: Store>(
    alloc: Global,
    upstream: Id,
    head: Id,
    store: &mut S,
) -> Result<Graph, Halt<Denial>>
    ensures gives { S.told → Gives (λ graph. graph) result (for_reason denied_file (loaded (S.seen store.old).content (upstream ∷ head ∷ []))) }
    ensures history { S.told → IfOk result (λ graph. IsHistory (S.seen store.old).content (upstream ∷ head ∷ []) graph) }
    ensures subjects { IfOk result (λ graph. HasPlainSubjects graph) }
    ensures reads { Reads S.told halt_cause result (S.seen store.old) (S.seen store.new) }
{
    match load(alloc, store, &[upstream, head]) {
        Ok(graph) => Ok(graph),
        Err(halt) => Err(file_halt(halt)),
    }
}

/// A history has all commits of its own.
fn want_known(graph: &Graph, ids: &[Id]) -> Result<(), Halt<Denial>>
    ensures gives { first_missing graph.now ids.now ≡ None → Gives (λ x. x) result (Ok tt) }
    ensures known { IfOk result (λ x. first_missing graph.now ids.now ≡ None) }
    ensures no_fault { IsErrOf result Halt.Fault → ⊥ }
{
    match graph.missing(ids) {
        Some(id) => Err(refused(Refusal::BadObject { id })),
        None => Ok(()),
    }
}

/// The commits that HEAD has and the upstream has not.
#[tactic(auto, using(crate::proofs::Generated::upstream_known, crate::proofs::Generated::head_known))]
fn commits(alloc: Global, graph: &Graph, upstream: Id, head: Id) -> Result<Vec<Id>, Halt<Denial>>
    ensures gives { (w : World) → IsHistory w (upstream ∷ head ∷ []) graph.now → Gives (λ ids. ids.items) result
        (Ok (commits_of graph.now upstream head)) }
    ensures range { IfOk result (λ ids. IsRange graph.now (upstream ∷ []) (head ∷ []) ids.items) }
    ensures no_fault { IsErrOf result Halt.Fault → ⊥ }
{
    want_known(graph, &[upstream])?;
    want_known(graph, &[head])?;
    Ok(range(alloc, graph, &[upstream], &[head])?)
}

/// Their lines.
#[tactic(auto, using(crate::proofs::Generated::range_known))]
fn lines_of(
    alloc: Global,
    graph: &Graph,
    upstream: Id,
    head: Id,
    ids: &[Id],
) -> Result<Vec<Line>, Halt<Denial>>
    requires subjects { HasPlainSubjects graph.now }
    requires range { IsRange graph.now (upstream ∷ []) (head ∷ []) ids.now }
    ensures gives { (w : World) → IsHistory w (upstream ∷ head ∷ []) graph.now → Gives (λ lines. lines.items) result
        (Ok (linear_todo graph.now ids.now)) }
    ensures spelled { IfOk result (λ lines. All IsSpelled lines.items) }
    ensures no_fault { IsErrOf result Halt.Fault → ⊥ }
{
    want_known(graph, ids)?;
    Ok(plan_linear(alloc, graph, ids)?)
}

/// Their todo, with the commands behind each.
#[tactic(auto, using(crate::proofs::Generated::with_execs_spelled))]
fn text_of(alloc: Global, lines: Vec<Line>, execs: &[Bytes]) -> Result<Bytes, AllocError>
    requires lines { All IsSpelled lines.items }
    requires execs { list_all is_command_text execs.now ≡ true }
    ensures { IfOk result (λ text. text ≡ todo_text (with_execs execs.now lines.items)) }
{
    let lines = add_exec(alloc, lines, execs)?;
    todo_of(alloc, &lines)
}

fn todo_in(
    alloc: Global,
    words: &StartWords,
    graph: &Graph,
    upstream: Id,
    head: Id,
) -> Result<Bytes, Halt<Denial>>
    requires subjects { HasPlainSubjects graph.now }
    requires execs { list_all is_command_text words.now.execs ≡ true }
    ensures gives { (w : World) → IsHistory w (upstream ∷ head ∷ []) graph.now → Gives (λ text. text) result
        (Ok (todo_by words.now upstream head graph.now)) }
    ensures no_fault { IsErrOf result Halt.Fault → ⊥ }
{
    let ids = commits(alloc, graph, upstream, head)?;
    let lines = lines_of(alloc, graph, upstream, head, &ids)?;
    Ok(text_of(alloc, lines, words.execs.as_slice())?)
}

/// The lines that are generated: those of the commits that HEAD has and the upstream has not, and the commands behind each.
#[tactic(auto, unfolding(crate::specs::Checks::generated))]
fn generated<S: Store>(
    alloc: Global,
    words: &StartWords,
    upstream: Id,
    head: Id,
    store: &mut S,
) -> Result<Bytes, Halt<Denial>>
    requires { list_all is_command_text words.now.execs ≡ true }
    ensures gives { S.told → Gives (λ text. text) result (generated_in words.now upstream head (S.seen store.old).content) }
    ensures reads { Reads S.told halt_cause result (S.seen store.old) (S.seen store.new) }
{
    let graph = load_both(alloc, upstream, head, store)?;
    todo_in(alloc, words, &graph, upstream, head)
}

// ---- the words

fn is_rebase(verb: Verb) -> bool
    ensures { result ≡ is_rebase_verb verb }
{
    match verb {
        Verb::Rebase => true,
        Verb::CherryPick | Verb::Revert => false,
    }
}

/// No option that a rebase does not have.
fn are_rebase_options(options: Options) -> bool
    ensures { result ≡ are_rebase_options_of options }
{
    options.mainline.is_none() && !options.edit && !options.record_origin && !options.allow_empty
}

fn lacks_options(words: &StartWords) -> bool
    ensures { result ≡ lacks_options_of words.now }
{
    !words.merges && !words.autosquash && !words.update_refs
}

fn has_no_feed(text: &[u8]) -> bool
    ensures { result ≡ list_all (λ b. not (b == 10)) text.now }
{
    text.iter().all(|byte| *byte != b'\n')
}

fn is_command(text: &[u8]) -> bool
    ensures { result ≡ is_command_text text.now }
{
    match text {
        [] => false,
        [first, ..] => !is_blank(*first) && has_no_feed(text),
    }
}

fn are_commands(texts: &[Bytes]) -> bool
    ensures { result ≡ list_all is_command_text texts.now }
{
    texts.iter().all(|text| is_command(text.as_slice()))
}

fn is_built(words: &StartWords) -> bool
    ensures { result ≡ is_built_by words.now }
{
    is_rebase(words.verb)
        && lacks_options(words)
        && are_rebase_options(words.options)
        && are_commands(words.execs.as_slice())
}

/// The only one of the words.
fn only_word(revs: &[Bytes]) -> Result<Bytes, Halt<Denial>>
    ensures gives { Gives (λ word. word) result (upstream_of revs.now) }
    ensures no_fault { IsErrOf result Halt.Fault → ⊥ }
{
    match revs {
        [upstream] => Ok(upstream.clone()?),
        _ => Err(refused(Refusal::NotBuilt)),
    }
}

/// The word that gives the upstream, where what is asked for is built.
#[tactic(auto, unfolding(crate::specs::Checks::upstream_in))]
fn upstream_word(words: &StartWords) -> Result<Bytes, Halt<Denial>>
    ensures gives { Gives (λ word. word) result (upstream_in words.now) }
    ensures built { IfOk result (λ word. is_built_by words.now ≡ true) }
    ensures no_fault { IsErrOf result Halt.Fault → ⊥ }
{
    if !is_built(words) {
        return Err(refused(Refusal::NotBuilt));
    }
    only_word(words.revs.as_slice())
}

/// The word that gives the commit to rebase onto.
fn onto_word(words: &StartWords, upstream: &Bytes) -> Result<Bytes, AllocError>
    ensures { IfOk result (λ word. word ≡ unwrap_or words.now.onto upstream.now) }
{
    match &words.onto {
        Some(onto) => onto.clone(),
        None => upstream.clone(),
    }
}

fn no_such_rev(alloc: Global, word: &[u8]) -> Result<Halt<Denial>, AllocError>
    ensures { IfOk result (λ halt. halt ≡ Halt.Stops (Denial.Refused (Refusal.NoSuchRev word.now))) }
{
    let word = Bytes::from_vec(word.to_vec(alloc)?);
    Ok(refused(Refusal::NoSuchRev { word }))
}

/// The commit to rebase onto, by a word of one line.
#[tactic(auto, unfolding(crate::specs::Checks::onto_by))]
fn onto_of<S: Store>(alloc: Global, word: &[u8], store: &mut S) -> Result<Id, Halt<Denial>>
    ensures gives { S.told → Gives (λ id. id) result (onto_by (S.seen store.old).content word.now) }
    ensures message { IfOk result (λ id. IsMessage word.now) }
    ensures reads { Reads S.told halt_cause result (S.seen store.old) (S.seen store.new) }
{
    let onto = commit_by(alloc, word, store)?;
    if !has_no_feed(word) {
        return Err(no_such_rev(alloc, word)?);
    }
    Ok(onto)
}

// ---- the control

fn branch_of(head: Head) -> Option<Bytes>
    ensures { result ≡ branch_of_head head }
{
    match head {
        Head::Branch(name) => Some(name),
        Head::Detached(_) => None,
    }
}

fn control_of(
    alloc: Global,
    words: &StartWords,
    on: Head,
    head: Id,
    onto: Id,
    todo: Bytes,
) -> Control
    ensures { result ≡ control_for words.now on head onto todo }
{
    Control {
        verb: Verb::Rebase,
        options: words.options,
        head_name: branch_of(on),
        orig: head,
        onto,
        done: Lines::from_vec(Vec::new(alloc)),
        left: Left::Lines(Lines::from_vec(Vec::new(alloc))),
        backup: todo,
        labels: Labels::from_vec(Vec::new(alloc)),
        updates: RefUpdates::from_vec(Vec::new(alloc)),
        rewritten: IdPairs::from_vec(Vec::new(alloc)),
        waiting: Ids::from_vec(Vec::new(alloc)),
        chain: Chain::from_vec(Vec::new(alloc)),
        stop: StopWord::Break,
        stopped_head: head,
        stopped_commit: None,
        pending: None,
    }
}

fn bytes_found(found: Option<Vec<u8>>) -> Option<Bytes>
    ensures { result ≡ option_map (λ v. v.items) found }
{
    match found {
        Some(text) => Some(Bytes::from_vec(text)),
        None => None,
    }
}

fn todo_editor(
    alloc: Global,
    words: &StartWords,
    config: &Config,
    env: &Env,
) -> Result<Option<Bytes>, AllocError>
    ensures { IfOk result (λ found. found ≡ editor_asked words.now config.now env.now) }
{
    if !words.interactive {
        return Ok(None);
    }
    Ok(bytes_found(editor(alloc, config, env, true)?))
}

// ---- all of them

#[tactic(auto, unfolding(crate::specs::Checks::clean_for))]
fn want_clean<S: Store>(
    alloc: Global,
    head: Id,
    index: &[IndexEntry],
    store: &mut S,
) -> Result<(), Halt<Denial>>
    requires { IsInOrder index.now }
    ensures gives { S.told → Gives (λ x. x) result (clean_for index.now head (S.seen store.old).content) }
    ensures reads { Reads S.told halt_cause result (S.seen store.old) (S.seen store.new) }
{
    want_merged(alloc, index)?;
    let _ours = clean_map(alloc, head, index, store)?;
    Ok(())
}

fn checked_of(
    alloc: Global,
    words: &StartWords,
    env: &Env,
    on: Head,
    config: &Config,
    upstream_word: Bytes,
    onto_word: Bytes,
    onto: Id,
    head: Id,
    todo: Bytes,
) -> Result<Checked, AllocError>
    requires built { is_built_by words.now ≡ true }
    requires on { IsHeadValue on }
    requires word { IsMessage onto_word }
    ensures is { IfOk result (λ checked. checked ≡ checked_as words.now env.now on config.now upstream_word onto_word onto head todo) }
    ensures checked { IfOk result IsChecked }
{
    let editor = todo_editor(alloc, words, config, env)?;
    Ok(Checked {
        control: control_of(alloc, words, on, head, onto, todo),
        upstream: upstream_word,
        onto_word,
        editor,
    })
}

#[tactic(auto, using(crate::proofs::Generated::commands_built), unfolding(crate::specs::Checks::todo_for))]
fn todo_for<S: Store>(
    alloc: Global,
    words: &StartWords,
    env: &Env,
    config: &Config,
    index: &[IndexEntry],
    upstream: Id,
    head: Id,
    store: &mut S,
) -> Result<Bytes, Halt<Denial>>
    requires built { is_built_by words.now ≡ true }
    requires order { IsInOrder index.now }
    ensures gives { S.told → Gives (λ todo. todo) result
        (todo_of_list words.now env.now config.now index.now upstream head (S.seen store.old).content) }
    ensures reads { Reads S.told halt_cause result (S.seen store.old) (S.seen store.new) }
{
    let _committer = committer(alloc, env.vars.as_slice(), config)?;
    want_clean(alloc, head, index, store)?;
    generated(alloc, words, upstream, head, store)
}

#[tactic(auto, unfolding(crate::specs::Checks::todo_at))]
fn todo_at<S: Store>(
    alloc: Global,
    words: &StartWords,
    env: &Env,
    tip: Option<Id>,
    config: &Config,
    index: &[IndexEntry],
    upstream: Id,
    store: &mut S,
) -> Result<(Id, Bytes), Halt<Denial>>
    requires built { is_built_by words.now ≡ true }
    requires order { IsInOrder index.now }
    ensures gives { S.told → Gives (λ found. found) result
        (todo_at_tip words.now env.now tip config.now index.now upstream (S.seen store.old).content) }
    ensures reads { Reads S.told halt_cause result (S.seen store.old) (S.seen store.new) }
{
    let head = born(tip)?;
    let todo = todo_for(alloc, words, env, config, index, upstream, head, store)?;
    Ok((head, todo))
}

/// Its commits are known.
#[tactic(auto, unfolding(crate::specs::Checks::checked_from))]
fn check_from<S: Store>(
    alloc: Global,
    words: &StartWords,
    env: &Env,
    place: Place,
    config: &Config,
    index: &[IndexEntry],
    upstream_word: Bytes,
    onto_word: Bytes,
    onto: Id,
    upstream: Id,
    store: &mut S,
) -> Result<Checked, Halt<Denial>>
    requires built { is_built_by words.now ≡ true }
    requires on { IsHeadValue place.head }
    requires word { IsMessage onto_word }
    requires order { IsInOrder index.now }
    ensures gives { S.told → Gives (λ checked. checked) result
        (checked_from words.now env.now place config.now index.now upstream_word onto_word onto upstream (S.seen store.old).content) }
    ensures checked { IfOk result IsChecked }
    ensures reads { Reads S.told halt_cause result (S.seen store.old) (S.seen store.new) }
{
    let (head, todo) = todo_at(alloc, words, env, place.tip, config, index, upstream, store)?;
    Ok(checked_of(
        alloc,
        words,
        env,
        place.head,
        config,
        upstream_word,
        onto_word,
        onto,
        head,
        todo,
    )?)
}

#[tactic(auto, unfolding(crate::specs::Checks::checked_with))]
fn check_with<S: Store>(
    alloc: Global,
    words: &StartWords,
    env: &Env,
    place: Place,
    config: &Config,
    index: &[IndexEntry],
    upstream_word: Bytes,
    onto_word: Bytes,
    store: &mut S,
) -> Result<Checked, Halt<Denial>>
    requires built { is_built_by words.now ≡ true }
    requires on { IsHeadValue place.head }
    requires order { IsInOrder index.now }
    ensures gives { S.told → Gives (λ checked. checked) result
        (checked_with words.now env.now place config.now index.now upstream_word onto_word (S.seen store.old).content) }
    ensures checked { IfOk result IsChecked }
    ensures reads { Reads S.told halt_cause result (S.seen store.old) (S.seen store.new) }
{
    let onto = onto_of(alloc, onto_word.as_slice(), store)?;
    let upstream = commit_by(alloc, upstream_word.as_slice(), store)?;
    check_from(
        alloc,
        words,
        env,
        place,
        config,
        index,
        upstream_word,
        onto_word,
        onto,
        upstream,
        store,
    )
}

#[tactic(auto, unfolding(crate::specs::Checks::checked_at))]
fn check_at<S: Store>(
    alloc: Global,
    words: &StartWords,
    env: &Env,
    upstream: Bytes,
    store: &mut S,
) -> Result<Checked, Halt<Denial>>
    requires { is_built_by words.now ≡ true }
    ensures gives { S.told → Gives (λ checked. checked) result (checked_at words.now env.now upstream (S.seen store.old).content) }
    ensures checked { IfOk result IsChecked }
    ensures reads { Reads S.told halt_cause result (S.seen store.old) (S.seen store.new) }
{
    let Basis {
        place,
        config,
        index,
    } = read_basis(alloc, store)?;
    let onto = onto_word(words, &upstream)?;
    check_with(
        alloc, words, env, place, &config, &index, upstream, onto, store,
    )
}

/// The checks of a start, in their order, before its own children.
#[tactic(auto, unfolding(crate::specs::Checks::checked_in))]
pub fn check_start<S: Store>(
    alloc: Global,
    words: &StartWords,
    env: &Env,
    store: &mut S,
) -> Result<Checked, Halt<Denial>>
    ensures gives { S.told → Gives (λ checked. checked) result (checked_in words.now env.now (S.seen store.old).content) }
    ensures checked { IfOk result IsChecked }
    ensures reads { Reads S.told halt_cause result (S.seen store.old) (S.seen store.new) }
{
    want_repository(alloc, store)?;
    let upstream = upstream_word(words)?;
    want_idle(alloc, store)?;
    check_at(alloc, words, env, upstream, store)
}
