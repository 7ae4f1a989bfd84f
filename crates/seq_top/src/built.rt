//! What is built of what words can ask for.

ghost use Rattle.std.specs.Prelude.{◌≡◌, option_map};
ghost use Rattle.seq_top.specs.Built.{is_cherry_pick as is_cherry_pick_verb, is_plain as is_plain_of, is_stop as is_stop_of, only_word as only_word_of, picked_alone as picked_alone_by};

use seq_base::Bytes;
use seq_model::{Empty, Options, StartWords, Verb};

fn is_stop(empty: Empty) -> bool
    ensures { result ≡ is_stop_of empty }
{
    match empty {
        Empty::Stop => true,
        Empty::Drop | Empty::Keep => false,
    }
}

/// As a cherry-pick without options has them.
fn is_plain(options: Options) -> bool
    ensures { result ≡ is_plain_of options }
{
    is_stop(options.empty)
        && options.mainline.is_none()
        && !options.edit
        && !options.record_origin
        && !options.allow_empty
}

fn is_cherry_pick(verb: Verb) -> bool
    ensures { result ≡ is_cherry_pick_verb verb }
{
    match verb {
        Verb::CherryPick => true,
        Verb::Rebase | Verb::Revert => false,
    }
}

fn only_word(words: &[Bytes]) -> Option<&[u8]>
    ensures { option_map (λ word. word.now) result ≡ only_word_of words.now }
{
    match words {
        [word] => Some(word.as_slice()),
        _ => None,
    }
}

/// The word of the commit to pick, where that is what is asked for: a cherry-pick of one commit, without options.
pub fn picked_alone(start: &StartWords) -> Option<&[u8]>
    ensures { option_map (λ word. word.now) result ≡ picked_alone_by start.now }
{
    if is_cherry_pick(start.verb) && is_plain(start.options) {
        only_word(start.revs.as_slice())
    } else {
        None
    }
}
