//! Lines in segments: a line that stays, and behind it what was moved there. So a line is moved without a look at all others.

ghost use Rattle.std.specs.Prelude.{◌≡◌, ◌+◌, ◌<◌, ◌≤◌, ◌∷◌, ◌++◌, [], IfOk, OnOk, None, Some, insert, length, map};
ghost use Rattle.todo_plan.specs.Autosquash.{belongs, is_number, moved_at, placed_at, up_to_last, with_line};
ghost use Rattle.todo_plan.specs.Segments.{InSegments, all_of, picks_of};

use std::alloc::{AllocError, Global};
use std::marker::Model;
use todo_text::Line;

/// A line in its place. Each pick of the range has a number.
#[derive(Drop)]
pub(crate) struct Placed {
    pub line: Line,
    /// Which of the picks it is.
    pub pick: Option<usize>,
    /// Behind which of the picks it was moved.
    pub target: Option<usize>,
}

/// A line that stays, and behind it what was moved there. Contracts see the list of them.
#[derive(Drop)]
pub(crate) struct Segment {
    placed: Vec<Placed>,
}

impl Model for Segment {
    ghost use Rattle.std.specs.Prelude.{List};
    ghost use Rattle.todo_plan.specs.declared.segments.Placed.{Placed as PlacedValue};

    ghost Value = { List PlacedValue };

    ghost view = { λ s. s.placed.items };
}

impl Segment {
    fn new(alloc: Global, placed: Placed) -> Result<Segment, AllocError>
        ensures { IfOk result (λ segment. segment ≡ placed ∷ []) }
    {
        Ok(Segment {
            placed: vec![in alloc; placed]?,
        })
    }

    /// Puts a line behind the last one that belongs to a pick.
    fn put(&mut self, number: usize, placed: Placed) -> Result<(), AllocError>
        ensures { OnOk result (self.new ≡ insert self.old (up_to_last number self.old) placed) }
    {
        let place = up_to_last(number, &self.placed);
        self.placed.insert(place, placed)?;
        Ok(())
    }

    pub fn into_vec(self) -> Vec<Placed>
        ensures { result.items ≡ self }
    {
        self.placed
    }
}

fn is_number(number: usize, found: Option<usize>) -> bool
    ensures { result ≡ is_number number found }
{
    match found {
        Some(other) => other == number,
        None => false,
    }
}

fn belongs(number: usize, placed: &Placed) -> bool
    ensures { result ≡ belongs number placed.now }
{
    is_number(number, placed.pick) || is_number(number, placed.target)
}

/// How many lines stand up to the last one that belongs to a pick.
fn up_to_last(number: usize, placed: &[Placed]) -> usize
    ensures count { result ≡ up_to_last number placed.now }
    ensures within { result ≤ length placed.now }
{
    let mut end = placed.len();
    while end > 0 {
        if belongs(number, &placed[end - 1]) {
            return end;
        }
        end -= 1;
    }
    0
}

/// The lines so far.
#[derive(Drop)]
pub(crate) struct Places {
    pub segments: Vec<Segment>,
    /// The segment of each pick.
    pub homes: Vec<usize>,
}

/// Puts a line that is no pick behind all others.
#[tactic(auto, using(crate::proofs::SegmentLaws::joined_line, crate::proofs::SegmentLaws::stays))]
pub(crate) fn put_line(alloc: Global, line: Line, places: &mut Places) -> Result<(), AllocError>
    requires { InSegments places.old }
    ensures lines { OnOk result (all_of places.new ≡ with_line (all_of places.old) line) }
    ensures homes { OnOk result (picks_of places.new ≡ picks_of places.old) }
    ensures segments { OnOk result (InSegments places.new) }
{
    let placed = Placed {
        line,
        pick: None,
        target: None,
    };
    places.segments.push(Segment::new(alloc, placed)?)?;
    Ok(())
}

/// Puts the next pick behind all others.
#[tactic(auto, using(crate::proofs::SegmentLaws::joined_line, crate::proofs::SegmentLaws::pick_stays))]
pub(crate) fn put_pick(alloc: Global, line: Line, places: &mut Places) -> Result<(), AllocError>
    requires { InSegments places.old }
    ensures lines { OnOk result (all_of places.new ≡ placed_at (picks_of places.old) (all_of places.old) line None) }
    ensures homes { OnOk result (picks_of places.new ≡ picks_of places.old + 1) }
    ensures segments { OnOk result (InSegments places.new) }
{
    let placed = Placed {
        line,
        pick: Some(places.homes.len()),
        target: None,
    };
    places.homes.push(places.segments.len())?;
    places.segments.push(Segment::new(alloc, placed)?)?;
    Ok(())
}

fn put_in(segment: &mut Segment, number: usize, placed: Placed) -> Result<(), AllocError>
    ensures { OnOk result (segment.new ≡ insert segment.old (up_to_last number segment.old) placed) }
{
    segment.put(number, placed)
}

/// Puts the next pick behind a pick and what was moved there before.
pub(crate) fn move_pick(line: Line, target: usize, places: &mut Places) -> Result<(), AllocError>
    requires segments { InSegments places.old }
    requires target { target < picks_of places.old }
    ensures lines { OnOk result (all_of places.new ≡ moved_at (picks_of places.old) (all_of places.old) line target) }
    ensures homes { OnOk result (picks_of places.new ≡ picks_of places.old + 1) }
    ensures segments { OnOk result (InSegments places.new) }
{
    let placed = Placed {
        line,
        pick: Some(places.homes.len()),
        target: Some(target),
    };
    let home = places.homes[target];
    places.homes.push(home)?;
    put_in(&mut places.segments[home], target, placed)
}
