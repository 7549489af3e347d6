// Inscribed circles: the circle, and the store that holds its numbers.
#![tactic(auto)]

pub mod checked;
pub mod store;

ghost use Rattle.std.specs.Prelude.{◌≡◌};
ghost use Rattle.inscribed.specs.Circles.{center, contact0, contact1, contact_dir, camber_point, reversed_points};
ghost use Rattle.inscribed.specs.Store.{numbers_of};

use errors::Refusal;
use line2::surface2::SurfacePoint2;
use points::{AngleDir, Point2, Vector2};
use store::WIDTH;

// An inscribed circle: centre, radius, the two points where it touches the section, and the lengths along of the section's nearest points to these.
#[derive(Clone, Copy, Default)]
pub struct Inscribed {
    pub cx: f64,
    pub cy: f64,
    pub r: f64,
    pub p0x: f64,
    pub p0y: f64,
    pub p1x: f64,
    pub p1y: f64,
    pub l0: f64,
    pub l1: f64,
}

// The first and the last circle of a list.
#[derive(Clone, Copy)]
pub struct FrontAndBack {
    pub front: Inscribed,
    pub back: Inscribed,
}

impl Inscribed {
    pub fn center(self) -> Point2
        ensures { result ≡ center self }
    {
        Point2 {
            x: self.cx,
            y: self.cy,
        }
    }

    pub fn contact0(self) -> Point2
        ensures { result ≡ contact0 self }
    {
        Point2 {
            x: self.p0x,
            y: self.p0y,
        }
    }

    pub fn contact1(self) -> Point2
        ensures { result ≡ contact1 self }
    {
        Point2 {
            x: self.p1x,
            y: self.p1y,
        }
    }

    // From the first contact to the second.
    pub fn contact_dir(self) -> Vector2
        ensures { result ≡ contact_dir self }
    {
        self.contact1() - self.contact0()
    }

    // The camber ray: at the centre, along the contact direction turned clockwise.
    #[tactic(auto, unfolding(crate::specs::Circles::camber_point))]
    pub fn camber_point(self) -> Result<SurfacePoint2, Refusal>
        ensures { result ≡ camber_point self }
    {
        SurfacePoint2::new_normalize(self.center(), self.contact_dir().rot90(AngleDir::Cw))
    }

    // The circle with its contacts swapped, and their lengths along.
    pub fn reverse_points(self) -> Inscribed
        ensures { result ≡ reversed_points self }
    {
        Inscribed {
            p0x: self.p1x,
            p0y: self.p1y,
            p1x: self.p0x,
            p1y: self.p0y,
            l0: self.l1,
            l1: self.l0,
            ..self
        }
    }

    // The circle's numbers, as they stand in a store.
    #[tactic(auto, unfolding(crate::specs::Store::numbers_of))]
    pub fn numbers(self) -> [f64; WIDTH]
        ensures { result ≡ numbers_of self }
    {
        [
            self.cx, self.cy, self.r, self.p0x, self.p0y, self.p1x, self.p1y, self.l0, self.l1,
        ]
    }
}
