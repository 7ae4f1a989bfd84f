//! The names of attributes.

ghost use Rattle.std.specs.Prelude.{◌≡◌};
ghost use Rattle.std.specs.List.{before_first, after_first, list_all};
ghost use Rattle.attr_rules.specs.Names.{is_equals, is_name_byte as may_name, is_name, without_sign, has_name, have_names};

use crate::cut::first_word;

/// What stands before the first `=`, and what stands behind it; all, and nothing, where there is none.
pub fn name_and_value(word: &[u8]) -> (&[u8], &[u8])
    ensures before { result.0.now ≡ before_first is_equals word.now }
    ensures behind { result.1.now ≡ after_first is_equals word.now }
{
    for (n, byte) in word.iter().enumerate() {
        if *byte == b'=' {
            return (&word[..n], &word[n + 1..]);
        }
    }
    (word, &[])
}

fn is_name_byte(byte: u8) -> bool
    ensures { result ≡ may_name byte }
{
    byte.is_ascii_alphanumeric() || byte == b'-' || byte == b'.' || byte == b'_'
}

fn are_name_bytes(name: &[u8]) -> bool
    ensures { result ≡ list_all may_name name.now }
{
    name.iter().all(|byte| is_name_byte(*byte))
}

fn is_name(name: &[u8]) -> bool
    ensures { result ≡ is_name name.now }
{
    let [first, ..] = name else { return false };
    *first != b'-' && are_name_bytes(name)
}

fn without_sign(word: &[u8]) -> &[u8]
    ensures { result.now ≡ without_sign word.now }
{
    match word {
        [first, name @ ..] => {
            if *first == b'-' || *first == b'!' {
                name
            } else {
                word
            }
        }
        [] => word,
    }
}

fn has_name(word: &[u8]) -> bool
    ensures { result ≡ has_name word.now }
{
    let [_, ..] = word else { return true };
    let (name, _) = name_and_value(without_sign(word));
    is_name(name)
}

/// Whether each of the words mentions an attribute by a name that one may have.
pub fn have_names(attributes: &[u8]) -> bool
    ensures { result ≡ have_names attributes.now }
{
    let mut rest = attributes;
    while !rest.is_empty() {
        let (word, behind) = first_word(rest);
        if !has_name(word) {
            return false;
        }
        rest = behind;
    }
    true
}
