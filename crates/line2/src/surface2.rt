// Surface points: a point with a normal, which the camber rays are too.
ghost use Rattle.std.specs.Prelude.{◌≡◌};
ghost use Rattle.line2.specs.Rays.{ray_normalized, ray_projection, at_distance, shifted_ray, rotated_ray, ray_line, halfway_ray};

use crate::Line2;
use errors::{Refusal, watch};
use points::{AngleDir, Point2, Vector2};

#[derive(Clone, Copy)]
pub struct SurfacePoint2 {
    pub point: Point2,
    pub normal: Vector2,
}

impl SurfacePoint2 {
    #[tactic(auto, unfolding(crate::specs::Rays::ray_normalized))]
    pub fn new_normalize(point: Point2, v: Vector2) -> Result<SurfacePoint2, Refusal>
        ensures { result ≡ ray_normalized point v }
    {
        let normal = v.normalize()?;
        Ok(SurfacePoint2 { point, normal })
    }

    // normal · (p - point).
    #[tactic(auto, unfolding(crate::specs::Rays::ray_projection, crate::specs::Lines::line_projection))]
    pub fn scalar_projection(self, p: Point2) -> Result<f64, Refusal>
        ensures { result ≡ ray_projection self p }
    {
        self.to_line().scalar_project(p)
    }

    // point + normal × distance.
    #[tactic(auto, unfolding(crate::specs::Rays::at_distance, crate::specs::Lines::at_param))]
    pub fn at_distance(self, distance: f64) -> Result<Point2, Refusal>
        ensures { result ≡ at_distance self distance }
    {
        self.to_line().at(distance)
    }

    // The surface point moved along its normal.
    #[tactic(auto, unfolding(crate::specs::Rays::shifted_ray))]
    pub fn shifted(self, distance: f64) -> Result<SurfacePoint2, Refusal>
        ensures { result ≡ shifted_ray self distance }
    {
        let point = self.at_distance(distance)?;
        Ok(SurfacePoint2 {
            point,
            normal: self.normal,
        })
    }

    pub fn normal_rotated_90(self, dir: AngleDir) -> SurfacePoint2
        ensures { result ≡ rotated_ray dir self }
    {
        SurfacePoint2 {
            point: self.point,
            normal: self.normal.rot90(dir),
        }
    }

    // The line through the point along the normal.
    pub fn to_line(self) -> Line2
        ensures { result ≡ ray_line self }
    {
        Line2 {
            origin: self.point,
            direction: self.normal,
        }
    }

    // The ray halfway to another: halfway between the points, along the sum of the normals.
    #[tactic(auto, unfolding(crate::specs::Rays::halfway_ray, crate::specs::Rays::ray_normalized, points::specs::Points::mid_point_of))]
    pub fn halfway(self, other: SurfacePoint2) -> Result<SurfacePoint2, Refusal>
        ensures { result ≡ halfway_ray self other }
    {
        let point = points::mid_point(other.point, self.point)?;
        SurfacePoint2::new_normalize(point, self.normal + other.normal)
    }
}
