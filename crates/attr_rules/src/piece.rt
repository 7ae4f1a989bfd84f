//! The pieces of a pattern.

ghost use Rattle.std.specs.Prelude.{◌≡◌, ◌&&◌, ◌||◌, ◌<◌, ◌≤◌, nat_le, length, position, IfSome};
ghost use Rattle.std.specs.Option.{option_map};
ghost use Rattle.attr_rules.specs.Letters.{is_plain};
ghost use Rattle.attr_rules.specs.Pieces.{piece_at, star_at, set_at, set_or_others_at, ends_part, is_member, fits_set};
ghost use Rattle.attr_rules.specs.Reach.{may_be_empty, may_end, may_go_on};
ghost use Rattle.attr_rules.specs.Coded.{piece_of, cut_of};

use crate::letter::Letter;

/// What a pattern asks for, one after the other.
#[derive(Clone, Copy)]
pub enum Piece<'a> {
    /// This byte.
    Byte(u8),
    /// One byte but `/`.
    AnyByte,
    /// One byte of a set, or of all others.
    OneOf(bool, &'a [Letter]),
    /// Bytes but `/`.
    Star,
    /// Any number of folders, each with its `/`.
    Folders,
    /// Any bytes.
    Everything,
}

impl Piece<'_> {
    /// Whether it may take nothing.
    pub fn may_be_empty(&self) -> bool
        ensures { result ≡ may_be_empty (piece_of self.now) }
    {
        match self {
            Piece::Byte(_) | Piece::AnyByte | Piece::OneOf(_, _) => false,
            Piece::Star | Piece::Folders | Piece::Everything => true,
        }
    }

    /// Whether it may take the byte as its last.
    pub fn may_end(&self, byte: u8) -> bool
        ensures { result ≡ may_end (piece_of self.now) byte }
    {
        match self {
            Piece::Byte(only) => byte == *only,
            Piece::AnyByte | Piece::Star => byte != b'/',
            Piece::OneOf(negated, members) => fits_set(*negated, members, byte),
            Piece::Folders => byte == b'/',
            Piece::Everything => true,
        }
    }

    /// Whether it may take the byte, and one more.
    pub fn may_go_on(&self, byte: u8) -> bool
        ensures { result ≡ may_go_on (piece_of self.now) byte }
    {
        match self {
            Piece::Byte(_) | Piece::AnyByte | Piece::OneOf(_, _) => false,
            Piece::Star => byte != b'/',
            Piece::Folders | Piece::Everything => true,
        }
    }

    /// Whether a part of a path begins behind it.
    pub fn ends_part(&self) -> bool
        ensures { result ≡ ends_part (piece_of self.now) }
    {
        match self {
            Piece::Byte(only) => *only == b'/',
            Piece::Folders => true,
            Piece::AnyByte | Piece::OneOf(_, _) | Piece::Star | Piece::Everything => false,
        }
    }
}

fn is_between(low: u8, byte: u8, high: u8) -> bool
    ensures { result ≡ (nat_le low byte && nat_le byte high) }
{
    low <= byte && byte <= high
}

/// Whether the first byte or range of a set has the byte, and what stands behind it.

fn first_has(members: &[Letter], byte: u8) -> (bool, &[Letter])
    requires { 0 < length members.now }
    ensures same { (result.0 || is_member result.1.now byte) ≡ is_member members.now byte }
    ensures shorter { length result.1.now < length members.now }
{
    match members {
        [low, dash, high, rest @ ..] => {
            if dash.is_plain(b'-') {
                let has = low.byte == byte || is_between(low.byte, byte, high.byte);
                (has, rest)
            } else {
                (low.byte == byte, &members[1..])
            }
        }
        [low, rest @ ..] => (low.byte == byte, rest),
        [] => (false, members),
    }
}

fn is_member(members: &[Letter], byte: u8) -> bool
    ensures { result ≡ is_member members.now byte }
{
    let mut rest = members;
    while !rest.is_empty() {
        let (has, behind) = first_has(rest, byte);
        if has {
            return true;
        }
        rest = behind;
    }
    false
}

fn fits_set(negated: bool, members: &[Letter], byte: u8) -> bool
    ensures { result ≡ fits_set negated members.now byte }
{
    if negated {
        !is_member(members, byte)
    } else {
        is_member(members, byte)
    }
}

fn star_at(begins: bool, letters: &[Letter]) -> Option<(Piece<'_>, &[Letter])>
    ensures same { option_map cut_of result ≡ star_at begins letters.now }
    ensures shorter { IfSome result (λ found. length found.1.now ≤ length letters.now) }
{
    match letters {
        [] => Some((Piece::Star, letters)),
        [star] => {
            if begins && star.is_plain(b'*') {
                Some((Piece::Everything, &[]))
            } else {
                Some((Piece::Star, letters))
            }
        }
        [star, slash, rest @ ..] => {
            if begins && star.is_plain(b'*') && slash.is_plain(b'/') {
                Some((Piece::Folders, rest))
            } else {
                Some((Piece::Star, letters))
            }
        }
    }
}

fn set_end(letters: &[Letter]) -> Option<usize>
    ensures first { result ≡ position (λ a. is_plain a 93) letters.now }
    ensures within { IfSome result (λ n. n < length letters.now) }
{
    letters.iter().position(|letter| letter.is_plain(b']'))
}

fn set_at(negated: bool, letters: &[Letter]) -> Option<(Piece<'_>, &[Letter])>
    ensures same { option_map cut_of result ≡ set_at negated letters.now }
    ensures shorter { IfSome result (λ found. length found.1.now < length letters.now) }
{
    let [_, rest @ ..] = letters else { return None };
    match set_end(rest) {
        None => None,
        Some(end) => Some((
            Piece::OneOf(negated, &letters[..end + 1]),
            &letters[end + 2..],
        )),
    }
}

fn set_or_others_at(letters: &[Letter]) -> Option<(Piece<'_>, &[Letter])>
    ensures same { option_map cut_of result ≡ set_or_others_at letters.now }
    ensures shorter { IfSome result (λ found. length found.1.now ≤ length letters.now) }
{
    let [first, rest @ ..] = letters else {
        return None
    };
    if first.is_plain(b'!') || first.is_plain(b'^') {
        set_at(true, rest)
    } else {
        set_at(false, letters)
    }
}

/// The first piece and what stands behind it, where the letters stand in front or behind a `/`, or elsewhere. None where
/// there is no letter, or a set is not closed.
pub fn piece_at(begins: bool, letters: &[Letter]) -> Option<(Piece<'_>, &[Letter])>
    ensures same { option_map cut_of result ≡ piece_at begins letters.now }
    ensures shorter { IfSome result (λ found. length found.1.now < length letters.now) }
{
    let [first, rest @ ..] = letters else {
        return None
    };
    if first.is_plain(b'*') {
        star_at(begins, rest)
    } else if first.is_plain(b'?') {
        Some((Piece::AnyByte, rest))
    } else if first.is_plain(b'[') {
        set_or_others_at(rest)
    } else {
        Some((Piece::Byte(first.byte), rest))
    }
}
