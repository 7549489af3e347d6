// Points and vectors by value, and the steps on them.
#![tactic(auto)]

pub mod segment2;

ghost use Rattle.std.specs.Prelude.{◌≡◌};
ghost use Rattle.points.specs.Numbers.{is_within};
ghost use Rattle.points.specs.Points.{finite_point, finite_vector, minus, plus_vector, plus, times, divided_by, negated, rotated, difference, dot_of, norm_of, dist_of, mid_point_of, normalized};

use errors::{Finite, Refusal, watch};
use std::ops::{Add, Div, Mul, Neg, Sub};

#[derive(Clone, Copy)]
pub struct Point2 {
    pub x: f64,
    pub y: f64,
}

#[derive(Clone, Copy)]
pub struct Vector2 {
    pub x: f64,
    pub y: f64,
}

// A direction of rotation.
#[derive(Clone, Copy)]
pub enum AngleDir {
    Cw,
    Ccw,
}

impl Finite for Point2 {
    ghost finite = { finite_point };

    fn all_finite(self) -> bool {
        self.x.all_finite() && self.y.all_finite()
    }
}

impl Finite for Vector2 {
    ghost finite = { finite_vector };

    fn all_finite(self) -> bool {
        self.x.all_finite() && self.y.all_finite()
    }
}

// Each operation below rounds once.
impl Sub for Point2 {
    type Output = Vector2;

    ghost sub_gives = { λ a b v. v ≡ minus a b };

    fn sub(self, rhs: Point2) -> Vector2 {
        Vector2 {
            x: self.x - rhs.x,
            y: self.y - rhs.y,
        }
    }
}

impl Add<Vector2> for Point2 {
    type Output = Point2;

    ghost add_gives = { λ p v q. q ≡ plus_vector p v };

    fn add(self, rhs: Vector2) -> Point2 {
        Point2 {
            x: self.x + rhs.x,
            y: self.y + rhs.y,
        }
    }
}

impl Add for Vector2 {
    type Output = Vector2;

    ghost add_gives = { λ a b v. v ≡ plus a b };

    fn add(self, rhs: Vector2) -> Vector2 {
        Vector2 {
            x: self.x + rhs.x,
            y: self.y + rhs.y,
        }
    }
}

impl Mul<f64> for Vector2 {
    type Output = Vector2;

    ghost mul_gives = { λ v t r. r ≡ times v t };

    fn mul(self, rhs: f64) -> Vector2 {
        Vector2 {
            x: self.x * rhs,
            y: self.y * rhs,
        }
    }
}

impl Div<f64> for Vector2 {
    type Output = Vector2;

    ghost div_gives = { λ v l r. r ≡ divided_by v l };

    fn div(self, rhs: f64) -> Vector2 {
        Vector2 {
            x: self.x / rhs,
            y: self.y / rhs,
        }
    }
}

impl Neg for Vector2 {
    type Output = Vector2;

    ghost neg_gives = { λ v r. r ≡ negated v };

    fn neg(self) -> Vector2 {
        Vector2 {
            x: -self.x,
            y: -self.y,
        }
    }
}

// Whether x is below the bound in size.
pub fn is_within(bound: f64, x: f64) -> bool
    ensures { result ≡ is_within bound x }
{
    -bound < x && x < bound
}

// a - b, watched.
#[tactic(auto, unfolding(crate::specs::Points::difference))]
pub fn difference(a: Point2, b: Point2) -> Result<Vector2, Refusal>
    ensures { result ≡ difference a b }
{
    watch(a - b)
}

// The distance of two points.
#[tactic(auto, unfolding(crate::specs::Points::dist_of))]
pub fn dist(a: Point2, b: Point2) -> Result<f64, Refusal>
    ensures { result ≡ dist_of a b }
{
    (a - b).norm()
}

// The point halfway between two points.
#[tactic(auto, unfolding(crate::specs::Points::mid_point_of))]
pub fn mid_point(a: Point2, b: Point2) -> Result<Point2, Refusal>
    ensures { result ≡ mid_point_of a b }
{
    watch(b + (a - b) * 0.5)
}

impl Vector2 {
    #[tactic(auto, unfolding(crate::specs::Points::dot_of))]
    pub fn dot(self, other: Vector2) -> Result<f64, Refusal>
        ensures { result ≡ dot_of self other }
    {
        watch(self.x * other.x + self.y * other.y)
    }

    // The vector's length.
    #[tactic(auto, unfolding(crate::specs::Points::norm_of))]
    pub fn norm(self) -> Result<f64, Refusal>
        ensures { result ≡ norm_of self }
    {
        watch(root::square_root(self.dot(self)?))
    }

    // The vector divided by its length: 11 where that is zero.
    #[tactic(auto, unfolding(crate::specs::Points::normalized))]
    pub fn normalize(self) -> Result<Vector2, Refusal>
        ensures { result ≡ normalized self }
    {
        let length = self.norm()?;
        if length == 0.0 {
            return Err(Refusal::ZeroLength);
        }
        watch(self / length)
    }

    // The vector after a quarter turn.
    pub fn rot90(self, dir: AngleDir) -> Vector2
        ensures { result ≡ rotated dir self }
    {
        match dir {
            AngleDir::Cw => Vector2 {
                x: self.y,
                y: -self.x,
            },
            AngleDir::Ccw => Vector2 {
                x: -self.y,
                y: self.x,
            },
        }
    }
}
