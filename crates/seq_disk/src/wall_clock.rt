//! The clock on the wall.

use seq_outside::Clock;
use std::rt;

/// The system's clock. It answers 0 before 1970.
#[derive(Drop)]
pub struct WallClock<'a, R: rt::Clock> {
    rt: &'a R,
}

impl<'a, R: rt::Clock> WallClock<'a, R> {
    pub fn new(rt: &'a R) -> WallClock<'a, R> {
        WallClock { rt }
    }
}

impl<'a, R: rt::Clock> Clock for WallClock<'a, R> {
    ghost ticked = { λ _ _ _. Unit {0} };

    fn now(&mut self) -> i64 {
        match self.rt.since_1970() {
            Ok(time) => i64::try_from(time.as_secs()).unwrap_or(i64::MAX),
            Err(_) => 0,
        }
    }
}
