// Stretches cut out of a section, into outputs that the caller lends.
ghost use Rattle.std.specs.Prelude.{◌≡◌, length};
ghost use Rattle.partitioning.specs.Pieces.{between_lengths, split_open, split_closed, piece_answer, pieces_answer, stretch_after, first_after, second_after};
ghost use Rattle.rummyteak.specs.Told.{told_as, told, piece_cells, pieces_cells, pieces_left};

use crate::telling;

// The part between two lengths along.
pub fn rummyteak_between_lengths(
    section: &[f64],
    tol: f64,
    l0: f64,
    l1: f64,
    out: &mut [f64],
    count: &mut usize,
    is_closed: &mut bool,
    given: &mut usize,
) -> u32
    ensures given_after { (record { number = result; left = piece_cells count.new is_closed.new given.new }) ≡ told (piece_cells count.old is_closed.old given.old) (piece_answer tol (between_lengths section.now tol l0 l1 (length out.old))) }
    ensures out_after { out.new ≡ stretch_after (between_lengths section.now tol l0 l1 (length out.old)) out.old }
{
    telling::tell_piece(
        partitioning::between_lengths(section, tol, l0, l1, out),
        count,
        is_closed,
        given,
    )
}

// An open section split at a length along.
pub fn rummyteak_split_open_at_length(
    section: &[f64],
    tol: f64,
    at: f64,
    out0: &mut [f64],
    out1: &mut [f64],
    counts: &mut [usize; 2],
    are_closed: &mut [bool; 2],
    given: &mut [usize; 2],
) -> u32
    ensures given_after { (record { number = result; left = pieces_cells counts.new are_closed.new given.new }) ≡ told_as pieces_left (pieces_cells counts.old are_closed.old given.old) (pieces_answer tol (split_open section.now tol at (length out0.old) (length out1.old))) }
    ensures out0_after { out0.new ≡ first_after (split_open section.now tol at (length out0.old) (length out1.old)) out0.old }
    ensures out1_after { out1.new ≡ second_after (split_open section.now tol at (length out0.old) (length out1.old)) out1.old }
{
    telling::tell_pieces(
        partitioning::split_open_at_length(section, tol, at, out0, out1),
        counts,
        are_closed,
        given,
    )
}

// A closed section split at two lengths along.
pub fn rummyteak_split_closed_at_lengths(
    section: &[f64],
    tol: f64,
    l0: f64,
    l1: f64,
    out0: &mut [f64],
    out1: &mut [f64],
    counts: &mut [usize; 2],
    are_closed: &mut [bool; 2],
    given: &mut [usize; 2],
) -> u32
    ensures given_after { (record { number = result; left = pieces_cells counts.new are_closed.new given.new }) ≡ told_as pieces_left (pieces_cells counts.old are_closed.old given.old) (pieces_answer tol (split_closed section.now tol l0 l1 (length out0.old) (length out1.old))) }
    ensures out0_after { out0.new ≡ first_after (split_closed section.now tol l0 l1 (length out0.old) (length out1.old)) out0.old }
    ensures out1_after { out1.new ≡ second_after (split_closed section.now tol l0 l1 (length out0.old) (length out1.old)) out1.old }
{
    telling::tell_pieces(
        partitioning::split_closed_at_lengths(section, tol, l0, l1, out0, out1),
        counts,
        are_closed,
        given,
    )
}
