//! What an entry of a tree is.

ghost use Rattle.std.specs.Prelude.{◌≡◌, MatchOption};
ghost use Rattle.seq_base.specs.Modes.{mode_text, mode_number};

/// What an entry of a tree is: a file, an executable file, a symbolic link, another repository's commit, or a folder.
#[derive(Clone, Copy, Debug, PartialEq, Eq)]
pub enum Mode {
    File,
    Exec,
    Link,
    Gitlink,
    Folder,
}

impl Mode {
    /// The mode with these octal digits, as a tree has them, and None exactly for other text.
    pub fn read(text: &[u8]) -> Option<Mode>
        ensures { MatchOption result ((mode : Mode) → text.now ≡ mode_text mode → ⊥) (λ mode. text.now ≡ mode_text mode) }
    {
        match text {
            b"100644" => Some(Mode::File),
            b"100755" => Some(Mode::Exec),
            b"120000" => Some(Mode::Link),
            b"160000" => Some(Mode::Gitlink),
            b"40000" => Some(Mode::Folder),
            _ => None,
        }
    }

    /// The number that the octal digits spell.
    pub fn number(self) -> u32
        ensures { result ≡ mode_number self }
    {
        match self {
            Mode::File => 0o100644,
            Mode::Exec => 0o100755,
            Mode::Link => 0o120000,
            Mode::Gitlink => 0o160000,
            Mode::Folder => 0o40000,
        }
    }
}
