// Stretches cut out of a section: the part between two lengths along, and a section split in two.
#![tactic(auto)]

pub mod stretch;
pub mod walk;

ghost use Rattle.curve2.specs.Lent.{IsLent};
ghost use Rattle.errors.specs.Answer.{passed};
ghost use Rattle.std.specs.Prelude.{◌≡◌, ◌≤◌, min, length, Ok, IfOk};
ghost use Rattle.curve2.specs.Section.{points_of};
ghost use Rattle.partitioning.specs.Code.{IsCuttable};
ghost use Rattle.partitioning.specs.Pieces.{cleaned_stretch, stretch_of, both_of, is_short, stretch_entry, between_lengths, split_open, split_closed, Cut, CutInTwo};

use cleaning::MOST_CLEANED;
use cleaning::checked::Uncleaned;
use curve2::checked::Curve2;
use curve2::{AlsoBad, CurveStation2, MOST_POINTS, entering};
use errors::{Finite, Refusal};

// The points that a walk gives the cleaning stand in an array of as many numbers, since the library takes no memory from the heap: they are one more than the section's at most.
const MOST_GIVEN: usize = 2 * MOST_POINTS;

// Where a stretch begins and ends, with the lengths along there.
#[derive(Clone, Copy)]
pub struct Ends {
    pub start: CurveStation2,
    pub end: CurveStation2,
    pub from: f64,
    pub to: f64,
}

// A piece in an output: how many points it has, whether its ends meet, and how many points the walk gave the cleaning.
#[derive(Clone, Copy)]
pub struct Piece {
    pub count: usize,
    pub is_closed: bool,
    pub given: usize,
}

// Both pieces of a split.
#[derive(Clone, Copy)]
pub struct Pieces {
    pub first: Piece,
    pub second: Piece,
}

// ---- the entry tests

// The entry tests of a section with at most 4,095 points, with whether the lengths are finite (2) and the length of the shortest output (4).
#[tactic(auto, unfolding(crate::specs::Pieces::stretch_entry))]
fn entered(section: &[f64], tol: f64, is_finite: bool, room: usize) -> Result<Curve2<'_>, Refusal>
    ensures entry { passed result ≡ stretch_entry section.now tol is_finite (is_short section.now room) }
    ensures lent { IsLent section.now tol result }
    ensures ready { IfOk result (λ s. IsCuttable s.points.now s.tol room) }
{
    if entering::is_bad_count(MOST_CLEANED, section.len()) {
        return Err(Refusal::PointCount);
    }
    let also = AlsoBad {
        number: !is_finite,
        room: room < section.len() + 2,
        ..AlsoBad::default()
    };
    entering::section_entry(section, tol, also)
}

// ---- pieces

// The piece of the points given, of which two or more are kept.
fn cut(given: &Uncleaned<'_>, out: &mut [f64]) -> Piece
    requires { length given.now.points.now ≤ length out.old }
    ensures { Cut (Ok (cleaned_stretch given.now.tol (points_of given.now.points.now))) given.now.tol out.old out.new (Ok result) }
{
    let c = given.clean(false, out);
    Piece {
        count: c.count,
        is_closed: c.is_closed,
        given: given.points.len() / 2,
    }
}

// The piece between two lengths along a section whose entry tests passed.
fn between(section: &Curve2<'_>, l0: f64, l1: f64, out: &mut [f64]) -> Result<Piece, Refusal>
    requires { IsCuttable section.now.points.now section.now.tol (length out.old) }
    ensures { Cut (stretch_of section.now.points.now section.now.tol l0 l1) section.now.tol out.old out.new result }
{
    let mut points = [0.0; MOST_GIVEN];
    let given = stretch::give(section, l0, l1, &mut points)?;
    Ok(cut(&given, out))
}

// Both pieces of a split, from a0 to a1 and from b0 to b1. No output is written before the points of both stand.
fn split(
    section: &Curve2<'_>,
    a0: f64,
    a1: f64,
    b0: f64,
    b1: f64,
    out0: &mut [f64],
    out1: &mut [f64],
) -> Result<Pieces, Refusal>
    requires { IsCuttable section.now.points.now section.now.tol (min (length out0.old) (length out1.old)) }
    ensures { CutInTwo (both_of (stretch_of section.now.points.now section.now.tol a0 a1) (stretch_of section.now.points.now section.now.tol b0 b1)) section.now.tol out0.old out0.new out1.old out1.new result }
{
    let mut first = [0.0; MOST_GIVEN];
    let mut second = [0.0; MOST_GIVEN];
    let a = stretch::give(section, a0, a1, &mut first)?;
    let b = stretch::give(section, b0, b1, &mut second)?;
    Ok(Pieces {
        first: cut(&a, out0),
        second: cut(&b, out1),
    })
}

// ---- the entry points

// The part of a section between two lengths along, which runs over the seam of a closed section where the second length lies before the first.
#[tactic(auto, unfolding(crate::specs::Pieces::between_lengths))]
pub fn between_lengths(
    section: &[f64],
    tol: f64,
    l0: f64,
    l1: f64,
    out: &mut [f64],
) -> Result<Piece, Refusal>
    ensures { Cut (between_lengths section.now tol l0 l1 (length out.old)) tol out.old out.new result }
{
    let is_finite = l0.all_finite() && l1.all_finite();
    let curve = entered(section, tol, is_finite, out.len())?;
    between(&curve, l0, l1, out)
}

// An open section split at a length along: 22 where it is closed.
#[tactic(auto, unfolding(crate::specs::Pieces::split_open))]
pub fn split_open_at_length(
    section: &[f64],
    tol: f64,
    at: f64,
    out0: &mut [f64],
    out1: &mut [f64],
) -> Result<Pieces, Refusal>
    ensures { CutInTwo (split_open section.now tol at (length out0.old) (length out1.old)) tol out0.old out0.new out1.old out1.new result }
{
    let room = out0.len().min(out1.len());
    let curve = entered(section, tol, at.all_finite(), room)?;
    if curve.is_closed() {
        return Err(Refusal::WrongKind);
    }
    split(&curve, 0.0, at, at, curve.whole_length(), out0, out1)
}

// A closed section split at two lengths along: 22 where it is open.
#[tactic(auto, unfolding(crate::specs::Pieces::split_closed))]
pub fn split_closed_at_lengths(
    section: &[f64],
    tol: f64,
    length0: f64,
    length1: f64,
    out0: &mut [f64],
    out1: &mut [f64],
) -> Result<Pieces, Refusal>
    ensures { CutInTwo (split_closed section.now tol length0 length1 (length out0.old) (length out1.old)) tol out0.old out0.new out1.old out1.new result }
{
    let is_finite = length0.all_finite() && length1.all_finite();
    let room = out0.len().min(out1.len());
    let curve = entered(section, tol, is_finite, room)?;
    if !curve.is_closed() {
        return Err(Refusal::WrongKind);
    }
    split(&curve, length0, length1, length1, length0, out0, out1)
}
