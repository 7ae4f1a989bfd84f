//! The clock on the wall.

use seq_disk::WallClock;
use seq_outside::Clock;
use std::time::Duration;
use std::{io, rt};

#[derive(Drop)]
struct Stopped(Option<Duration>);

impl rt::Clock for Stopped {
    fn monotonic(&self) -> io::Result<Duration> {
        self.since_1970()
    }

    fn since_1970(&self) -> io::Result<Duration> {
        self.0.ok_or(io::Error::from(io::ErrorKind::InvalidData))
    }
}

#[test]
fn tells_seconds(rt: HostRuntime) {
    let at_last = Stopped(Some(Duration::from_secs(1_700_000_000)));
    let before_1970 = Stopped(None);
    assert_eq!(rt; WallClock::new(&at_last).now(), 1_700_000_000);
    assert_eq!(rt; WallClock::new(&before_1970).now(), 0);
    assert!(rt; WallClock::new(&rt).now() > 1_700_000_000);
}
