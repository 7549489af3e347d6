// Sections: the types of their points, and what the entry tests take and answer. A section that passed the tests is what the functions of `checked` take.
#![tactic(auto)]

pub mod checked;
pub mod entering;

ghost use Rattle.std.specs.Prelude.{◌≡◌};
ghost use Rattle.curve2.specs.Section.{point, plain_dist};
ghost use Rattle.curve2.specs.Stations.{normal_of, surface_of};

use errors::Refusal;
use line2::surface2::SurfacePoint2;
use points::{AngleDir, Point2, Vector2};

// A section has no more points than this.
pub const MOST_POINTS: usize = 4096;

// What fails of the arguments beside the section: a number (2), a tolerance (3), a general tolerance finer than the section's (23; false in a call that isn't held to it), a count or an output (4). They are flags, since a test of the section with a smaller number is told first.
#[derive(Clone, Copy, Default)]
pub struct AlsoBad {
    pub number: bool,
    pub tolerance: bool,
    pub finer: bool,
    pub room: bool,
    pub state: bool,
}

// A place on a section: its point, the direction there, its edge and its fraction of that edge.
#[derive(Clone, Copy)]
pub struct CurveStation2 {
    pub point: Point2,
    pub direction: Vector2,
    pub index: usize,
    pub fraction: f64,
}

impl CurveStation2 {
    // To the right of the direction.
    pub fn normal(self) -> Vector2
        ensures { result ≡ normal_of self }
    {
        self.direction.rot90(AngleDir::Cw)
    }

    // The point with its normal.
    pub fn surface_point(self) -> SurfacePoint2
        ensures { result ≡ surface_of self }
    {
        SurfacePoint2 {
            point: self.point,
            normal: self.normal(),
        }
    }
}

// The distance of two points of a section. It is not watched: it is finite, as every coordinate is within 1,000,000.
#[tactic(auto, unfolding(crate::specs::Section::plain_dist))]
pub fn plain_dist(a: Point2, b: Point2) -> f64
    ensures { result ≡ plain_dist a b }
{
    let v = a - b;
    root::square_root(v.x * v.x + v.y * v.y)
}
