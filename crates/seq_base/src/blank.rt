//! Blanks.

ghost use Rattle.std.specs.Prelude.{◌≡◌};
ghost use Rattle.seq_base.specs.Blanks.{is_blank};

/// Whether a byte is SP or TAB.
pub fn is_blank(byte: u8) -> bool
    ensures { result ≡ is_blank byte }
{
    byte == b' ' || byte == b'\t'
}
