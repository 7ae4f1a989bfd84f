//! The answer to a line.

use crate::answer::Answer;
use crate::fault::CaseFault;
use crate::fields::Fields;
use crate::words::words_of;
use std::alloc::{AllocError, Global};

/// A case that is being answered: its fields that are not read yet, and its answer so far.
#[derive(Drop)]
pub struct Case<'a> {
    pub alloc: Global,
    pub fields: Fields<'a>,
    pub out: Answer,
}

/// The verbs that a program answers.
pub trait Verbs {
    /// Answers a case, and tells whether it has the verb.
    fn answer(&self, verb: &str, case: &mut Case<'_>) -> Result<bool, CaseFault>;
}

fn answer_case<V: Verbs>(alloc: Global, verbs: &V, line: &[u8]) -> Result<Answer, CaseFault> {
    let words = words_of(alloc, line)?;
    let mut case = Case {
        alloc,
        fields: Fields::new(alloc, words.as_slice()),
        out: Answer::new(alloc),
    };
    let verb = case.fields.word()?;
    match verbs.answer(verb, &mut case) {
        Ok(true) | Err(CaseFault::Told) => {}
        Ok(false) => return Err(CaseFault::Verb),
        Err(fault) => return Err(fault),
    }
    case.fields.end()?;
    Ok(case.out)
}

/// What is printed for a line: of a case that is not answered, why. A line that is empty or begins with `#` is printed as it is.
pub fn answer_line<V: Verbs>(alloc: Global, verbs: &V, line: &[u8]) -> Result<Vec<u8>, AllocError> {
    if line.is_empty() || line.starts_with(b"#") {
        return Vec::from_slice(alloc, line);
    }
    match answer_case(alloc, verbs, line) {
        Ok(answer) => Ok(answer.into_vec()),
        Err(CaseFault::Memory) => Err(AllocError),
        Err(fault) => Ok(format!(in alloc; "unreadable: {fault}")?.into_bytes()),
    }
}
