//! Fronts of names of refs, byte by byte.

ghost use Rattle.std.specs.Prelude.{◌≡◌, ◌<◌, ◌≤◌, length};
ghost use Rattle.std.specs.Str.Lossy.{second_byte_min, second_byte_max};
ghost use Rattle.seq_base.specs.RefNameFronts.{begins_char as is_char_front, begins_name as is_name_front, behind as is_behind, char_size as size_of_char, follows as follows_in_char, goes_on as may_go_on, goes_on_below as may_go_on_below, is_char as is_whole_char, is_lead as is_char_lead, is_second as is_char_second, keeps_parts as may_keep_parts, may_follow as may_stand_behind, next_text as text_behind, next_part as part_behind};

use crate::ref_name::{is_ref_byte, is_ref_part};

/// Where one stands behind a front of a name.
#[derive(Clone, Copy, Debug, PartialEq, Eq)]
pub struct RefFront {
    /// Where the last part begins, or 0 before the first slash.
    part: usize,
    /// How many bytes of the front are whole characters.
    text: usize,
}

/// The least byte that may stand second in a character that begins with the first (Unicode, table 3-7).
fn least_second(first: u8) -> u8
    ensures { result ≡ second_byte_min first }
{
    match first {
        0xe0 => 0xa0,
        0xf0 => 0x90,
        _ => 0x80,
    }
}

fn greatest_second(first: u8) -> u8
    ensures { result ≡ second_byte_max first }
{
    match first {
        0xed => 0x9f,
        0xf4 => 0x8f,
        _ => 0xbf,
    }
}

fn is_second(first: u8, byte: u8) -> bool
    ensures { result ≡ is_char_second first byte }
{
    least_second(first) <= byte && byte <= greatest_second(first)
}

fn follows(byte: u8) -> bool
    ensures { result ≡ follows_in_char byte }
{
    0x80 <= byte && byte <= 0xbf
}

fn is_lead(byte: u8) -> bool
    ensures { result ≡ is_char_lead byte }
{
    0xc2 <= byte && byte <= 0xf4
}

/// Whether some character of UTF-8 begins so.
fn begins_char(bytes: &[u8]) -> bool
    ensures { result ≡ is_char_front bytes.now }
{
    match bytes {
        [x] => *x < 0x80 || is_lead(*x),
        [x, y] => is_lead(*x) && is_second(*x, *y),
        [x, y, z] => 0xe0 <= *x && *x <= 0xf4 && is_second(*x, *y) && follows(*z),
        [x, y, z, w] => {
            0xf0 <= *x && *x <= 0xf4 && is_second(*x, *y) && follows(*z) && follows(*w)
        }
        _ => false,
    }
}

fn char_size(first: u8) -> usize
    ensures { result ≡ size_of_char first }
{
    match first {
        0..=0x7f => 1,
        0x80..=0xdf => 2,
        0xe0..=0xef => 3,
        _ => 4,
    }
}

/// Whether bytes that begin a character are a whole one.
fn is_char(bytes: &[u8]) -> bool
    requires { 0 < length bytes.now }
    ensures { result ≡ is_whole_char bytes.now }
{
    bytes.len() == char_size(bytes[0])
}

/// Whether the byte may stand behind the last one.
fn may_follow(last: u8, byte: u8) -> bool
    ensures { result ≡ may_stand_behind last byte }
{
    is_ref_byte(byte) && !(last == b'.' && byte == b'.') && !(last == b'@' && byte == b'{')
}

fn begins_name(front: &[u8]) -> bool
    ensures { result ≡ is_name_front front.now }
{
    b"refs/".starts_with(front) || b"HEAD".starts_with(front)
}

impl RefFront {
    /// Before the first byte.
    pub fn new() -> RefFront
        ensures { result ≡ record { part = 0; text = 0 } }
    {
        RefFront { part: 0, text: 0 }
    }

    fn keeps_parts(self, front: &[u8]) -> bool
        requires { self.part < length front.now }
        ensures { result ≡ may_keep_parts self front.now }
    {
        let at = front.len() - 1;
        if front[at] == b'/' {
            is_ref_part(&front[self.part..at])
        } else {
            !(self.part == at && front[at] == b'.')
        }
    }

    fn goes_on_below(self, front: &[u8]) -> bool
        requires part { 0 < self.part }
        requires within { self.text < length front.now }
        ensures { result ≡ may_go_on_below self front.now }
    {
        let size = front.len();
        self.part < size
            && may_follow(front[size - 2], front[size - 1])
            && begins_char(&front[self.text..])
            && self.keeps_parts(front)
    }

    fn goes_on(self, front: &[u8]) -> bool
        ensures { result ≡ may_go_on self front.now }
    {
        if front.len() <= self.text {
            return false;
        }
        if self.part == 0 {
            begins_name(front)
        } else {
            self.goes_on_below(front)
        }
    }

    fn next_part(self, front: &[u8]) -> usize
        requires { 0 < length front.now }
        ensures { result ≡ part_behind self front.now }
    {
        if self.part == 0 {
            return if front == b"refs/".as_slice() { 5 } else { 0 };
        }
        if front[front.len() - 1] == b'/' {
            front.len()
        } else {
            self.part
        }
    }

    fn next_text(self, front: &[u8]) -> usize
        requires { self.text < length front.now }
        ensures { result ≡ text_behind self front.now }
    {
        if self.part == 0 || is_char(&front[self.text..]) {
            front.len()
        } else {
            self.text
        }
    }

    /// Behind the last byte of the front, where some name goes on with it. This one stands before that byte.
    pub fn behind(self, front: &[u8]) -> Option<RefFront>
        ensures { result ≡ is_behind self front.now }
    {
        if !self.goes_on(front) {
            return None;
        }
        Some(RefFront {
            part: self.next_part(front),
            text: self.next_text(front),
        })
    }
}
