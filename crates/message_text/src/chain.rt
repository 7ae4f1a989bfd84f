//! What a squash chain is made of.

ghost use Rattle.std.specs.Prelude.{◌≡◌};
ghost use Rattle.message_text.specs.Kinds.{is_first, is_squash, is_fixup};

use seq_base::Bytes;

/// What a line of a todo list does with the message of its commit.
#[derive(Clone, Copy, Debug, PartialEq, Eq)]
pub enum ChainKind {
    /// The commit that the others go into.
    First,
    /// `squash`: the message is added.
    Squash,
    /// `fixup`: the message is dropped.
    Fixup,
    /// `fixup -C`: the message takes the place of those before.
    Keep,
    /// `fixup -c`: the same, and the message is edited.
    KeepEdit,
}

/// A commit of a squash chain: what is done with its message, and the message.
#[derive(Clone, Debug, PartialEq, Eq, Drop)]
pub struct ChainItem {
    pub kind: ChainKind,
    pub message: Bytes,
}

pub fn is_first(kind: ChainKind) -> bool
    ensures { result ≡ is_first kind }
{
    matches!(kind, ChainKind::First)
}

pub fn is_squash(kind: ChainKind) -> bool
    ensures { result ≡ is_squash kind }
{
    matches!(kind, ChainKind::Squash)
}

pub fn is_fixup(kind: ChainKind) -> bool
    ensures { result ≡ is_fixup kind }
{
    matches!(kind, ChainKind::Fixup)
}
