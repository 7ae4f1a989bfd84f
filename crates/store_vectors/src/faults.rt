//! What stopped a call, in an answer.

use cases::{Answer, CaseFault};
use objects::ObjectFault;
use path_trees::TreeFault;
use ref_store::RefFault;
use rev_names::RevFault;
use seq_outside::{Halt, Lack, LimitWhat};

pub fn object_fault(out: &mut Answer, fault: &ObjectFault) -> Result<(), CaseFault> {
    match fault {
        ObjectFault::Missing => out.word(b"missing")?,
        ObjectFault::TooLarge { length } => out.counted(b"too-large", *length)?,
        ObjectFault::WrongHash { found, .. } => {
            out.word(b"wrong-hash")?;
            out.id(*found)?;
        }
        ObjectFault::BadText { at } => out.counted(b"bad-text", *at)?,
        ObjectFault::Collision { kept, .. } => out.named(b"collision", kept.as_slice())?,
        ObjectFault::Blocked { path } => out.named(b"blocked", path.as_slice())?,
        ObjectFault::Fault => out.word(b"fault")?,
        ObjectFault::Memory => return Err(CaseFault::Memory),
    }
    Ok(())
}

pub fn tree_fault(out: &mut Answer, fault: &TreeFault) -> Result<(), CaseFault> {
    match fault {
        TreeFault::BadObject { id } => {
            out.word(b"bad-object")?;
            out.id(*id)?;
        }
        TreeFault::TooLarge { length } => out.counted(b"too-large", *length)?,
        TreeFault::Depth => out.word(b"depth")?,
        TreeFault::Blocked { path } => out.named(b"blocked", path.as_slice())?,
        TreeFault::Fault => out.word(b"fault")?,
        TreeFault::Memory => return Err(CaseFault::Memory),
    }
    Ok(())
}

fn ref_fault(out: &mut Answer, fault: &RefFault) -> Result<(), CaseFault> {
    match fault {
        RefFault::BadHead => out.word(b"bad-head")?,
        RefFault::BadRef { name } => out.named(b"bad-ref", name.as_slice())?,
        RefFault::BadPacked { line } => out.counted(b"bad-packed", *line)?,
        RefFault::BadLog { line } => out.counted(b"bad-log", *line)?,
        RefFault::Moved { found } => {
            out.word(b"moved")?;
            out.id_or_none(*found)?;
        }
        RefFault::Blocked { name } => out.named(b"blocked", name.as_slice())?,
    }
    Ok(())
}

fn rev_fault(out: &mut Answer, fault: &RevFault) -> Result<(), CaseFault> {
    match fault {
        RevFault::NoSuch => out.word(b"no-such")?,
        RevFault::Ambiguous { first, second } => {
            out.word(b"ambiguous")?;
            out.id(*first)?;
            out.id(*second)?;
        }
        RevFault::NotACommit => out.word(b"no-commit")?,
        RevFault::NoParent => out.word(b"no-parent")?,
        RevFault::NoLogEntry => out.word(b"no-log-entry")?,
        RevFault::Form => out.word(b"form")?,
        RevFault::BadObject { id } => {
            out.word(b"bad-object")?;
            out.id(*id)?;
        }
        RevFault::TooLarge { length } => out.counted(b"too-large", *length)?,
        RevFault::Parents { count } => out.counted(b"parents", *count)?,
        RevFault::BadRef { name } => out.named(b"bad-ref", name.as_slice())?,
    }
    Ok(())
}

fn limit_word(what: LimitWhat) -> &'static [u8] {
    match what {
        LimitWhat::ObjectBytes => b"object-bytes",
        LimitWhat::TreeDepth => b"tree-depth",
        LimitWhat::IndexEntries => b"index-entries",
        LimitWhat::TodoLines => b"todo-lines",
        LimitWhat::TodoBytes => b"todo-bytes",
        LimitWhat::Labels => b"labels",
        LimitWhat::Parents => b"parents",
        LimitWhat::Commits => b"commits",
        LimitWhat::Jobs => b"jobs",
    }
}

fn lack(out: &mut Answer, lack: &Lack) -> Result<(), CaseFault> {
    match lack {
        Lack::Object { id } => {
            out.word(b"lacks")?;
            out.id(*id)?;
        }
        Lack::Limit { what, number } => {
            out.word(b"limit")?;
            out.counted(limit_word(*what), *number)?;
        }
        Lack::Way { path } => out.named(b"way", path.as_slice())?,
        Lack::Place { id } => {
            out.word(b"place")?;
            out.id(*id)?;
        }
    }
    Ok(())
}

pub fn lack_halt(out: &mut Answer, halt: &Halt<Lack>) -> Result<(), CaseFault> {
    match halt {
        Halt::Stops(reason) => lack(out, reason),
        Halt::Fault => Ok(out.word(b"fault")?),
        Halt::Memory => Err(CaseFault::Memory),
    }
}

pub fn ref_halt(out: &mut Answer, halt: &Halt<RefFault>) -> Result<(), CaseFault> {
    match halt {
        Halt::Stops(reason) => ref_fault(out, reason),
        Halt::Fault => Ok(out.word(b"fault")?),
        Halt::Memory => Err(CaseFault::Memory),
    }
}

pub fn rev_halt(out: &mut Answer, halt: &Halt<RevFault>) -> Result<(), CaseFault> {
    match halt {
        Halt::Stops(reason) => rev_fault(out, reason),
        Halt::Fault => Ok(out.word(b"fault")?),
        Halt::Memory => Err(CaseFault::Memory),
    }
}
