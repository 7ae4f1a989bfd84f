//! Jobs.

ghost use Rattle.std.specs.Prelude.{◌≡◌, ◌++◌, ◌∷◌, [], IfOk, codes};
ghost use Rattle.child_jobs.specs.Jobs.{editor_of, exec_of, hook_of};

use seq_base::Bytes;
use seq_outside::{Job, Words};
use std::alloc::{AllocError, Global};

fn copy_of(alloc: Global, bytes: &[u8]) -> Result<Bytes, AllocError>
    ensures { IfOk result (λ copy. copy ≡ bytes.now) }
{
    Ok(Bytes::from_vec(bytes.to_vec(alloc)?))
}

/// One text, and another behind it.
fn joined(alloc: Global, front: &[u8], back: &[u8]) -> Result<Bytes, AllocError>
    ensures { IfOk result (λ text. text ≡ front.now ++ back.now) }
{
    let mut text = front.to_vec(alloc)?;
    text.extend_from_slice(back)?;
    Ok(Bytes::from_vec(text))
}

/// A job that reads nothing.
fn job_of(alloc: Global, words: Vec<Bytes>) -> Job
    ensures { result ≡ record { words = words.items; input = [] } }
{
    Job {
        words: Words::from_vec(words),
        input: Bytes::from_vec(Vec::new(alloc)),
    }
}

/// A command line, which the shell runs (git-rebase(1), "--exec"; gitattributes(5), "Defining a custom merge driver").
pub fn exec_job(alloc: Global, command: &[u8]) -> Result<Job, AllocError>
    ensures { IfOk result (λ job. job ≡ exec_of command.now) }
{
    let mut words = Vec::new(alloc);
    words.push(copy_of(alloc, b"sh")?)?;
    words.push(copy_of(alloc, b"-c")?)?;
    words.push(copy_of(alloc, command)?)?;
    Ok(job_of(alloc, words))
}

/// An editor, which is a command line, on a file (git-var(1), "GIT_EDITOR").
pub fn editor_job(alloc: Global, editor: &[u8], path: &[u8]) -> Result<Job, AllocError>
    ensures { IfOk result (λ job. job ≡ editor_of editor.now path.now) }
{
    let mut words = Vec::new(alloc);
    words.push(copy_of(alloc, b"sh")?)?;
    words.push(copy_of(alloc, b"-c")?)?;
    words.push(joined(alloc, editor, b" \"$@\"")?)?;
    words.push(copy_of(alloc, editor)?)?;
    words.push(copy_of(alloc, path)?)?;
    Ok(job_of(alloc, words))
}

fn push_copies(alloc: Global, words: &mut Vec<Bytes>, arguments: &[Bytes]) -> Result<(), AllocError>
    ensures { IfOk result (λ _. words.new.items ≡ words.old.items ++ arguments.now) }
{
    for argument in arguments {
        words.push(copy_of(alloc, argument.as_slice())?)?;
    }
    Ok(())
}

/// A hook with its arguments and what it reads on its standard input (githooks(5)).
pub fn hook_job(
    alloc: Global,
    name: &[u8],
    arguments: &[Bytes],
    input: &[u8],
) -> Result<Job, AllocError>
    ensures { IfOk result (λ job. job ≡ hook_of name.now arguments.now input.now) }
{
    let mut words = Vec::new(alloc);
    words.push(copy_of(alloc, b"sh")?)?;
    words.push(joined(alloc, b".git/hooks/", name)?)?;
    push_copies(alloc, &mut words, arguments)?;
    Ok(Job {
        words: Words::from_vec(words),
        input: copy_of(alloc, input)?,
    })
}
