//! Words whose bytes each pass a test.

ghost use Rattle.std.specs.Prelude.{◌≡◌, ℕ, Bool, true};
ghost use Rattle.std.specs.List.{list_all};

use crate::scan::Scan;

/// A test of a byte.
pub trait ByteTest {
    ghost passes: { Self → ℕ → Bool };

    fn is_met(&self, byte: u8) -> bool
        ensures { result ≡ passes self.now byte };
}

/// Goes over a word whose bytes each pass a test.
#[derive(Drop)]
pub struct PassingBytes<T: ByteTest> {
    pub test: T,
}

impl<T: ByteTest> Scan for PassingBytes<T> {
    ghost may = { λ s front. list_all (T.passes s.test) front };

    ghost has_seen = { λ s seen. list_all (T.passes s.test) seen ≡ true };

    fn goes_on(&mut self, front: &[u8]) -> bool {
        self.test.is_met(front[front.len() - 1])
    }
}
