//! Lines of a text, counted from 1.

ghost use Rattle.std.specs.Prelude.{◌≡◌, ◌≤◌, ◌<◌, ◌+◌, ◌==◌, ◌&&◌, nat_lt, length, slice_index};
ghost use Rattle.grammar.specs.Lines.{line_of_place as line_at};

/// Whether a further line begins behind the byte at this place.
fn ends_line(bytes: &[u8], place: usize) -> bool
    requires { place < length bytes.now }
    ensures { result ≡ (nat_lt (place + 1) (length bytes.now) && slice_index bytes.now place == 10) }
{
    place + 1 < bytes.len() && bytes[place] == b'\n'
}

/// The number of the line that has the byte at this place, or of the last line where the place is the end.
pub fn line_of_place(bytes: &[u8], place: usize) -> u64
    requires { place ≤ length bytes.now }
    ensures { result ≡ line_at place bytes.now }
{
    let mut line = 1;
    for i in 0..place {
        if ends_line(bytes, i) {
            line += 1;
        }
    }
    line
}
