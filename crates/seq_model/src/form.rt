//! How a word stands in a verb's synopsis.

/// How a word stands in a verb's synopsis.
#[derive(Clone, Copy, Debug, PartialEq, Eq)]
pub enum Form {
    /// `--continue` and its like: it stands alone.
    Action,
    /// `[-i]`
    Flag,
    /// `[--onto X]`
    Name,
    /// `[--empty=drop|keep|stop]`
    Empty,
    /// `[-m N]`
    Number,
    /// `[-x CMD]`, which may stand several times.
    Shell,
    /// `-m TEXT`
    Text,
    /// `UPSTREAM`
    One,
    /// `REV...`
    Many,
}
