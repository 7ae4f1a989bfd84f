//! A clock in memory.

use seq_memory::ListClock;
use seq_outside::Clock;
use std::test::Fail;

#[test]
fn the_last_moment_is_repeated(rt: HostRuntime) -> Result<(), Fail> {
    let mut clock = ListClock::new(Vec::from_slice(rt.alloc(), &[1990, 2000])?);
    for moment in [1990, 2000, 2000] {
        assert_eq!(rt; clock.now(), moment);
    }
    assert_eq!(rt; ListClock::new(Vec::new(rt.alloc())).now(), 0);
    Ok(())
}
