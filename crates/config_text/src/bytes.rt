//! Which bytes stand where.

ghost use Rattle.std.specs.Prelude.{◌≡◌};
ghost use Rattle.config_text.specs.Bytes.{is_section_byte, is_key_byte, is_sub_byte, is_include, escaped};
ghost use Rattle.config_text.specs.Reading.{is_end};

/// Whether a byte outside quotes ends a setting: the end of the line, or what begins a comment.
pub fn is_end(byte: u8) -> bool
    ensures { result ≡ is_end byte }
{
    byte == b'\n' || byte == b'#' || byte == b';'
}

pub fn is_section_byte(byte: u8) -> bool
    ensures { result ≡ is_section_byte byte }
{
    byte.is_ascii_alphanumeric() || byte == b'-' || byte == b'.'
}

pub fn is_key_byte(byte: u8) -> bool
    ensures { result ≡ is_key_byte byte }
{
    byte.is_ascii_alphanumeric() || byte == b'-'
}

/// Whether a subsection may hold the byte.
pub fn is_sub_byte(byte: u8) -> bool
    ensures { result ≡ is_sub_byte byte }
{
    byte != b'\n' && byte != 0
}

/// What `\` and the byte stand for in a value, if they may stand there.
pub fn escaped(byte: u8) -> Option<u8>
    ensures { result ≡ escaped byte }
{
    match byte {
        b'"' => Some(b'"'),
        b'\\' => Some(b'\\'),
        b'n' => Some(b'\n'),
        b't' => Some(b'\t'),
        b'b' => Some(8),
        _ => None,
    }
}

/// Whether the settings of a section, in lower case, name other files.
pub fn is_include(section: &[u8]) -> bool
    ensures { result ≡ is_include section.now }
{
    section == b"include".as_slice() || section == b"includeif".as_slice()
}
