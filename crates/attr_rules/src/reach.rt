//! How far a path is taken.

ghost use Rattle.std.specs.Prelude.{◌≡◌, ◌&&◌, ◌||◌, IfOk};
ghost use Rattle.attr_rules.specs.Reach.{may_be_empty, first_marks, marks_behind};
ghost use Rattle.attr_rules.specs.Coded.{piece_of};

use crate::piece::Piece;
use std::alloc::{AllocError, Global};

fn is_either_way(a: bool, b: bool, c: bool, d: bool) -> bool
    ensures { result ≡ ((a && b) || (c && d)) }
{
    (a && b) || (c && d)
}

/// Where a piece may end, for each place of the path at which what stands before it may end.
#[tactic(auto, unfolding(crate::specs::Reach::later_marks))]
pub fn marks_behind(
    alloc: Global,
    piece: &Piece<'_>,
    marks: &[bool],
    path: &[u8],
) -> Result<Vec<bool>, AllocError>
    ensures { IfOk result (λ v. v.items ≡ marks_behind (piece_of piece.now) marks.now path.now) }
{
    let mut behind = Vec::new(alloc);
    let [first, later @ ..] = marks else {
        return Ok(behind)
    };
    let may_be_empty = piece.may_be_empty();
    behind.push(may_be_empty & *first)?;
    let mut begun = *first;
    let mut left = later;
    let mut rest = path;
    while let [mark, others @ ..] = left {
        let [byte, bytes @ ..] = rest else {
            return Ok(behind)
        };
        behind.push(is_either_way(may_be_empty, *mark, begun, piece.may_end(*byte)))?;
        begun = is_either_way(*mark, *mark, begun, piece.may_go_on(*byte));
        left = others;
        rest = bytes;
    }
    Ok(behind)
}

/// The marks before the first piece.
pub fn first_marks(alloc: Global, path: &[u8]) -> Result<Vec<bool>, AllocError>
    ensures { IfOk result (λ v. v.items ≡ first_marks path.now) }
{
    let mut marks = Vec::new(alloc);
    marks.push(true)?;
    let mut rest = path;
    while let [_, after @ ..] = rest {
        marks.push(false)?;
        rest = after;
    }
    Ok(marks)
}
