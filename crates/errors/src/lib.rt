// The numbered refusals, the test that every watched value goes through, and the test of a sign.
#![tactic(auto)]

ghost use Rattle.std.specs.Prelude.{◌≡◌, Bool};
ghost use Rattle.std.specs.Float.Ieee.Scale.{finite};
ghost use Rattle.errors.specs.Numbers.{is_plus};
ghost use Rattle.errors.specs.Answer.{watched_as, number_of};

// Why no result is returned. The comment at each case is its number and meaning; `number_of` in specs/ lists the numbers. 14, spent, is an ending of runs alone and no refusal.
#[derive(Clone, Copy)]
pub enum Refusal {
    // 1: an odd count of numbers, fewer than 2 points, or too many.
    PointCount,
    // 2: a number handed in isn't finite or lies out of its range.
    BadNumber,
    // 3: a tolerance outside its range.
    Tolerance,
    // 4: a stated count, place or output that doesn't fit.
    NoRoom,
    // 5: cleaning leaves fewer than two points.
    TooFewKept,
    // 6: neighbouring points within the section tolerance, or lengths that don't strictly rise.
    NotSpaced,
    // 7: fewer than two circles where two are needed.
    TooFewCircles,
    // 8: a line asked for directly, or a start line, has not exactly two hits.
    NoCrossing,
    // 9: a length along below 0 or above the whole.
    OffCurve,
    // 10: a line to be halved is too long for the resolve tolerance.
    TooLong,
    // 11: a vector to be normalised has length zero.
    ZeroLength,
    // 12: a watched value is infinite or NaN.
    NotFinite,
    // 13: the advance finds no line.
    NoAdvance,
    // 15: a circle would be accepted and no slot is free.
    StoreFull,
    // 16: a 65th circle would wait in a refinement.
    StackFull,
    // 17: open edge asked of a closed section.
    ClosedSection,
    // 18: a gap end projects below zero on the camber ray.
    GapBehind,
    // 19: camber ray and gap are parallel.
    GapParallel,
    // 20: the ray meets the gap's line at a fraction of 0 or less, or outside the gap.
    GapMissed,
    // 21: lengths within the section tolerance of each other, an open section's end before its start, or fewer than two points left.
    EmptyStretch,
    // 22: a split of the wrong kind of section.
    WrongKind,
    // 23: a general tolerance smaller than the section tolerance.
    FinerThanSection,
    // 24: a record that ends early, or has bytes left over.
    RecordLength,
    // 25: a map of a record with a bit beyond a circle's numbers, or with a bit that stands over a zero field.
    RecordMap,
    // 26: a byte count that isn't a multiple of eight, or is above 73,728.
    ByteCount,
    // 27: a state that no spent march gives: too many waiting circles, or a bad one, none while refining, some while advancing, no circle in use, or a fraction above 3.
    BadState,
}

// The refusal's number.
impl From<Refusal> for u32 {
    ghost from_gives = { λ refusal n. n ≡ number_of refusal };

    fn from(refusal: Refusal) -> u32 {
        match refusal {
            Refusal::PointCount => 1,
            Refusal::BadNumber => 2,
            Refusal::Tolerance => 3,
            Refusal::NoRoom => 4,
            Refusal::TooFewKept => 5,
            Refusal::NotSpaced => 6,
            Refusal::TooFewCircles => 7,
            Refusal::NoCrossing => 8,
            Refusal::OffCurve => 9,
            Refusal::TooLong => 10,
            Refusal::ZeroLength => 11,
            Refusal::NotFinite => 12,
            Refusal::NoAdvance => 13,
            Refusal::StoreFull => 15,
            Refusal::StackFull => 16,
            Refusal::ClosedSection => 17,
            Refusal::GapBehind => 18,
            Refusal::GapParallel => 19,
            Refusal::GapMissed => 20,
            Refusal::EmptyStretch => 21,
            Refusal::WrongKind => 22,
            Refusal::FinerThanSection => 23,
            Refusal::RecordLength => 24,
            Refusal::RecordMap => 25,
            Refusal::ByteCount => 26,
            Refusal::BadState => 27,
        }
    }
}

// Whether the sign bit is clear; of a NaN it is taken for clear.
pub fn is_plus(x: f64) -> bool
    ensures { result ≡ is_plus x }
{
    x.is_nan() || x.is_sign_positive()
}

// A value of one number or more, which steps can watch.
pub trait Finite: Copy {
    // Whether none of its numbers is infinite or NaN.
    ghost finite: { Self → Bool };

    fn all_finite(self) -> bool
        ensures { result ≡ finite self };
}

impl Finite for f64 {
    ghost finite = { finite };

    fn all_finite(self) -> bool {
        self.is_finite()
    }
}

// A value that is watched: 12 where a number of it is infinite or NaN.
pub fn watch<T: Finite>(x: T) -> Result<T, Refusal>
    ensures { result ≡ watched_as T.finite x }
{
    if x.all_finite() {
        Ok(x)
    } else {
        Err(Refusal::NotFinite)
    }
}
