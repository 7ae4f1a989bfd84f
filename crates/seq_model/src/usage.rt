//! What is wrong with the words of the command line.

use seq_base::Bytes;

/// What is wrong with the words of the command line.
#[derive(Drop)]
pub enum UsageFault {
    /// There is no word.
    NoVerb,
    /// The first word is no verb.
    UnknownVerb { word: Bytes },
    /// The words are not as the verb takes them.
    Parse,
    /// An option has a value that it does not take.
    Value { word: Bytes },
    /// A name is missing.
    Missing,
    /// Two words exclude each other.
    Pair { first: Bytes, second: Bytes },
}
