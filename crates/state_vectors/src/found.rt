//! Cases of `state_found`.

use crate::told::put_control;
use crate::words;
use cases::{Case, CaseFault, files_of};
use seq_memory::QuietStore;
use seq_outside::Halt;
use state_found::{Found, StateFault, read_state};
use state_text::file_name;

/// The files of a store: `nothing`, `interrupted` and a verb, `paused` and a stopped list, or `bad` and the name of a file.
pub fn found(case: &mut Case<'_>) -> Result<(), CaseFault> {
    let files = files_of(case)?;
    let mut store = QuietStore::new(case.alloc, &files)?;
    match read_state(case.alloc, &mut store) {
        Ok(Found::Nothing) => Ok(case.out.word(b"nothing")?),
        Ok(Found::Interrupted(verb)) => {
            case.out.word(b"interrupted")?;
            Ok(case.out.word(words::verb_word(verb))?)
        }
        Ok(Found::Paused(control)) => {
            case.out.word(b"paused")?;
            Ok(put_control(&mut case.out, &control)?)
        }
        Err(Halt::Stops(StateFault::Bad { file })) => {
            Ok(case.out.named(b"bad", file_name(file))?)
        }
        Err(Halt::Fault) => Ok(case.out.word(b"fault")?),
        Err(Halt::Memory) => Err(CaseFault::Memory),
    }
}
