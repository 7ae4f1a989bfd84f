//! Commits that are made. The ids are those of `git commit-tree` and `git commit` of git 2.39.5.

use crate::fixture::{Does, Row, run};
use commit_maker::Source;
use std::test::Fail;

fn row() -> Row {
    Row {
        message: b"add b\n",
        by_ann: true,
        chain: false,
        edit: false,
        source: Source::Message,
        editor: b"",
        hooks: false,
    }
}

// Its content has 164 bytes.
#[test]
fn a_commit_without_hooks(rt: HostRuntime) -> Result<(), Fail> {
    let alloc = rt.alloc();
    let run = run(
        alloc,
        &row(),
        [Does::Nothing, Does::Nothing, Does::Nothing, Does::Nothing],
    )?;
    assert!(rt; run.is_made(b"d282083b6880cd1dddaa68f777a86591094a8398", b"add b"));
    assert!(rt; run.holds_one_object() && run.ran(0) && !run.unseen);
    Ok(())
}

// Hooks and the editor write what `git commit -e` found as the message, with its hooks and its editor.
#[test]
fn all_hooks_and_the_editor(rt: HostRuntime) -> Result<(), Fail> {
    let alloc = rt.alloc();
    let row = Row {
        edit: true,
        editor: b"vi",
        hooks: true,
        ..row()
    };
    let children = [
        Does::Nothing,
        Does::Writes(b"add b\n\nprepared\n"),
        Does::Writes(b"add b\n\nprepared\nedited\t\n"),
        Does::Writes(b"add b\n\nprepared\nedited\t\n# no line\n\n\nseen  \n\n"),
    ];
    let run = run(alloc, &row, children)?;
    assert!(rt; run.is_made(b"d9ad052864bae921cf46a196c7ce166725f82d00", b"add b"));
    assert!(rt; run.holds_one_object() && run.ran(4) && run.unseen);
    assert!(rt; run.asked(0, &[b"sh", b".git/hooks/pre-commit"]));
    assert!(rt;
        run.asked(
            1,
            &[
                b"sh",
                b".git/hooks/prepare-commit-msg",
                b".git/COMMIT_EDITMSG",
                b"message"
            ]
        )
    );
    assert!(rt;
        run.asked(
            2,
            &[b"sh", b"-c", b"vi \"$@\"", b"vi", b".git/COMMIT_EDITMSG"]
        )
    );
    assert!(rt;
        run.asked(
            3,
            &[b"sh", b".git/hooks/commit-msg", b".git/COMMIT_EDITMSG"]
        )
    );
    Ok(())
}

// Nothing is cleaned where no editor runs: as `git commit --cleanup=verbatim` has it.
#[test]
fn hooks_without_an_editor(rt: HostRuntime) -> Result<(), Fail> {
    let alloc = rt.alloc();
    let row = Row {
        edit: true,
        hooks: true,
        ..row()
    };
    let children = [
        Does::Nothing,
        Does::Nothing,
        Does::Writes(b"add b\nprepared\n# no line\n\n\nseen  \n\n"),
        Does::Nothing,
    ];
    let run = run(alloc, &row, children)?;
    assert!(rt;
        run.is_made(
            b"c6418bbac948582c3b927c160de85829b93cf750",
            b"add b prepared # no line"
        )
    );
    assert!(rt; run.ran(3) && run.unseen);
    Ok(())
}

#[test]
fn an_editor_without_hooks(rt: HostRuntime) -> Result<(), Fail> {
    let alloc = rt.alloc();
    let row = Row {
        edit: true,
        editor: b"vi",
        ..row()
    };
    let run = run(
        alloc,
        &row,
        [
            Does::Writes(b"add b\n\nedited\t\n"),
            Does::Nothing,
            Does::Nothing,
            Does::Nothing,
        ],
    )?;
    assert!(rt; run.is_made(b"5cc169b5727e63b45d3ada0ac90888c71041d5bc", b"add b"));
    assert!(rt; run.ran(1) && run.unseen);
    Ok(())
}

// The text of a squash chain is cleaned though nobody edits it, and the hook is told what it is; the committer is the author where there is
// no other.
#[test]
fn chains_merges_and_own_commits(rt: HostRuntime) -> Result<(), Fail> {
    let alloc = rt.alloc();
    let chain = Row {
        message: b"# This is a combination of 2 commits.\n# This is the 1st commit message:\n\none\n\n# This is the commit message #2:\n\ntwo\n",
        chain: true,
        source: Source::Squash,
        hooks: true,
        ..row()
    };
    let squashed = run(
        alloc,
        &chain,
        [Does::Nothing, Does::Nothing, Does::Nothing, Does::Nothing],
    )?;
    assert!(rt; squashed.is_made(b"af23df4a47a3807c96a48931db80e4880820e0ee", b"one"));
    assert!(rt; squashed.ran(1) && squashed.unseen);
    assert!(rt;
        squashed.asked(
            0,
            &[
                b"sh",
                b".git/hooks/prepare-commit-msg",
                b".git/COMMIT_EDITMSG",
                b"squash"
            ]
        )
    );
    let merge = Row {
        by_ann: false,
        source: Source::Merge,
        hooks: true,
        ..row()
    };
    let own = run(
        alloc,
        &merge,
        [Does::Nothing, Does::Nothing, Does::Nothing, Does::Nothing],
    )?;
    assert!(rt; own.is_made(b"f9d361d10a7b923473cbc76d678f8b3f4cafd292", b"add b"));
    assert!(rt;
        own.asked(
            0,
            &[
                b"sh",
                b".git/hooks/prepare-commit-msg",
                b".git/COMMIT_EDITMSG",
                b"merge"
            ]
        )
    );
    Ok(())
}

// A message without text is one where neither hook nor editor ran, and lines of comments are text where none edits.
#[test]
fn messages_without_text(rt: HostRuntime) -> Result<(), Fail> {
    let alloc = rt.alloc();
    let empty = Row {
        message: b"",
        edit: true,
        ..row()
    };
    let none = run(
        alloc,
        &empty,
        [Does::Nothing, Does::Nothing, Does::Nothing, Does::Nothing],
    )?;
    assert!(rt; none.is_made(b"cbbf071e7cdad0ee92f450a44acaa83237bd46f9", b""));
    let hooked = Row {
        edit: true,
        hooks: true,
        ..row()
    };
    let children = [
        Does::Nothing,
        Does::Nothing,
        Does::Writes(b"# x\n \t\n"),
        Does::Nothing,
    ];
    let comments = run(alloc, &hooked, children)?;
    assert!(rt; comments.is_made(b"7f253ec2adbc25e7627ef567c4cee6de5d1dec2f", b"# x "));
    Ok(())
}
