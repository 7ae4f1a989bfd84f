//! Commits that are not made.

use crate::fixture::{Does, Row, run};
use commit_maker::Source;
use seq_outside::Exit;
use std::test::Fail;

fn row() -> Row {
    Row {
        message: b"add b\n",
        by_ann: true,
        chain: false,
        edit: true,
        source: Source::Message,
        editor: b"vi",
        hooks: true,
    }
}

#[test]
fn each_child_may_refuse(rt: HostRuntime) -> Result<(), Fail> {
    let alloc = rt.alloc();
    let first = run(
        alloc,
        &row(),
        [Does::Exits(3), Does::Nothing, Does::Nothing, Does::Nothing],
    )?;
    assert!(rt; first.is_refused(b"pre-commit", Exit::Code(3), false));
    assert!(rt; first.ran(1) && first.holds_alone(b"add b\n"));
    let second = run(
        alloc,
        &row(),
        [Does::Nothing, Does::Exits(1), Does::Nothing, Does::Nothing],
    )?;
    assert!(rt; second.is_refused(b"prepare-commit-msg", Exit::Code(1), false));
    assert!(rt; second.ran(2) && second.holds_alone(b"add b\n"));
    let editing = [
        Does::Nothing,
        Does::Writes(b"more\n"),
        Does::Exits(255),
        Does::Nothing,
    ];
    let third = run(alloc, &row(), editing)?;
    assert!(rt; third.is_unedited(Exit::Code(255), false));
    assert!(rt; third.ran(3) && third.holds_alone(b"more\n"));
    let last = [
        Does::Nothing,
        Does::Nothing,
        Does::Writes(b"more\n"),
        Does::Exits(1),
    ];
    let fourth = run(alloc, &row(), last)?;
    assert!(rt; fourth.is_refused(b"commit-msg", Exit::Code(1), false));
    assert!(rt; fourth.ran(4) && fourth.holds_alone(b"more\n"));
    Ok(())
}

// One that could not be run counts as killed.
#[test]
fn children_that_cannot_be_run(rt: HostRuntime) -> Result<(), Fail> {
    let alloc = rt.alloc();
    let hook = run(
        alloc,
        &row(),
        [Does::Fails, Does::Nothing, Does::Nothing, Does::Nothing],
    )?;
    assert!(rt; hook.is_refused(b"pre-commit", Exit::Killed, true));
    let editing = [Does::Nothing, Does::Nothing, Does::Fails, Does::Nothing];
    let editor = run(alloc, &row(), editing)?;
    assert!(rt; editor.is_unedited(Exit::Killed, true));
    Ok(())
}

// The file is removed; only blanks are left; only comments are left of what was edited.
#[test]
fn nothing_is_left_of_a_message(rt: HostRuntime) -> Result<(), Fail> {
    let alloc = rt.alloc();
    let quiet = Row {
        edit: false,
        ..row()
    };
    let removed = run(
        alloc,
        &quiet,
        [Does::Removes, Does::Nothing, Does::Nothing, Does::Nothing],
    )?;
    assert!(rt; removed.is_empty() && removed.ran(1) && removed.unseen);
    let blank = run(
        alloc,
        &quiet,
        [
            Does::Writes(b" \t\n\n"),
            Does::Nothing,
            Does::Nothing,
            Does::Nothing,
        ],
    )?;
    assert!(rt; blank.is_empty() && blank.holds_alone(b" \t\n\n"));
    let editing = [
        Does::Nothing,
        Does::Nothing,
        Does::Writes(b"# all of it\n"),
        Does::Nothing,
    ];
    let edited = run(alloc, &row(), editing)?;
    assert!(rt; edited.is_empty() && edited.ran(4));
    Ok(())
}
