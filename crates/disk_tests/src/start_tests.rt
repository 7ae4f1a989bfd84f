ghost use Rattle.std.specs.Io.{WritesAtMost};

use seq_disk::{environment, words};
use std::env::FillError;
use std::rt;
use std::test::Fail;

#[derive(Drop)]
struct Given {
    zone: &'static str,
}

fn fill(text: &str, room: &mut [u8]) -> Result<usize, FillError>
    ensures { WritesAtMost result room.new }
{
    let bytes = text.as_bytes();
    if room.len() < bytes.len() {
        return Err(FillError::TooLong);
    }
    for (at, byte) in bytes.iter().enumerate() {
        room[at] = *byte;
    }
    Ok(bytes.len())
}

impl rt::Env for Given {
    fn arg(&self, at: usize, room: &mut [u8]) -> Result<usize, FillError> {
        match at {
            0 => fill("gitseq", room),
            1 => fill("cherry-pick", room),
            _ => Err(FillError::NotPresent),
        }
    }

    fn var(&self, name: &str, room: &mut [u8]) -> Result<usize, FillError> {
        match name {
            "GIT_EDITOR" => fill("ed", room),
            "GITSEQ_ZONE" => fill(self.zone, room),
            _ => Err(FillError::NotPresent),
        }
    }

    fn var_at(&self, _at: usize, _room: &mut [u8]) -> Result<usize, FillError> {
        Err(FillError::NotPresent)
    }
}

#[test]
fn reads_words_and_environment(rt: HostRuntime) -> Result<(), Fail> {
    let alloc = rt.alloc();
    for (zone, wanted) in [
        ("-0930", b"-0930"),
        ("00930", b"+0000"),
        ("+09300", b"+0000"),
    ] {
        let given = Given { zone };
        let words = words(alloc, &given)?;
        assert_eq!(rt; words.len(), 1);
        assert_eq!(rt; words[0].as_slice(), b"cherry-pick".as_slice());
        let env = environment(alloc, &given)?;
        assert_eq!(rt; env.zone, *wanted);
        assert_eq!(rt; env.vars.as_slice().len(), 1);
        assert_eq!(rt;
            env.vars.as_slice()[0].0.as_slice(),
            b"GIT_EDITOR".as_slice()
        );
        assert_eq!(rt; env.vars.as_slice()[0].1.as_slice(), b"ed".as_slice());
    }
    Ok(())
}
