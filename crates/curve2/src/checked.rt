// A section that passed the entry tests, and what is told of it: its ends, its lengths, its vertices and edges, and the stations at vertices.
ghost use Rattle.std.specs.Prelude.{◌≡◌, cond, ◌+◌, ◌-◌, ◌/◌, ◌%◌, ◌≤◌, ◌<◌, length};
ghost use Rattle.curve2.specs.Section.{points_of, point_at, plain_dist, ends_meet, is_closed, whole_length};
ghost use Rattle.curve2.specs.Entry.{HasPoints};
ghost use Rattle.curve2.specs.Stations.{vertex, last_vertex, edge_direction, mean_direction, vertex_direction, at_vertex};

use crate::{CurveStation2, plain_dist};
use errors::Refusal;
use points::{Point2, Vector2};

// A section that passed the entry tests: its numbers, x and y of each point in turn, and its tolerance.
#[derive(Clone, Copy)]
pub struct Curve2<'a> {
    pub points: &'a [f64],
    pub tol: f64,
    pub ghost has_points: { HasPoints points.now },
}

// The point whose numbers start at i.
pub fn point_at(points: &[f64], i: usize) -> Point2
    requires { i + 1 < length points.now }
    ensures { result ≡ point_at points.now i }
{
    Point2 {
        x: points[i],
        y: points[i + 1],
    }
}

// The point of a vertex.
pub fn vertex_at(points: &[f64], index: usize) -> Point2
    requires { index < length points.now / 2 }
    ensures { result ≡ vertex points.now index }
{
    point_at(points, 2 * index)
}

// Whether the ends of a list of points lie within the tolerance of each other.
pub fn ends_meet(points: &[f64], tol: f64) -> bool
    requires points_len { length points.now % 2 ≡ 0 }
    requires in_bounds { 2 ≤ length points.now }
    ensures { result ≡ ends_meet tol (points_of points.now) }
{
    plain_dist(point_at(points, 0), point_at(points, points.len() - 2)) <= tol
}

// The length of the edge between the points whose numbers start at i and at i + 2.
pub fn edge_length(points: &[f64], i: usize) -> f64
    requires { i + 3 < length points.now }
    ensures { result ≡ plain_dist (point_at points.now (i + 2)) (point_at points.now i) }
{
    plain_dist(point_at(points, i + 2), point_at(points, i))
}

impl Curve2<'_> {
    // Whether the section is closed.
    #[tactic(auto, unfolding(crate::specs::Section::is_closed))]
    pub fn is_closed(&self) -> bool
        ensures { result ≡ is_closed self.now.points.now self.now.tol }
    {
        ends_meet(self.points, self.tol)
    }

    // The number of its last vertex.
    pub fn last_vertex(&self) -> usize
        ensures { result ≡ last_vertex self.now.points.now }
    {
        self.points.len() / 2 - 1
    }

    // The length of the whole, edge by edge.
    pub fn whole_length(&self) -> f64
        ensures { result ≡ whole_length self.now.points.now }
    {
        let mut length: f64 = 0.0;
        for i in 0..self.last_vertex() {
            length = edge_length(self.points, 2 * i) + length;
        }
        length
    }

    // ---- its vertices and edges

    // The direction of an edge.
    #[tactic(auto, unfolding(crate::specs::Stations::edge_direction))]
    pub fn edge_direction(&self, index: usize) -> Result<Vector2, Refusal>
        requires { index < last_vertex self.now.points.now }
        ensures { result ≡ edge_direction self.now.points.now index }
    {
        (vertex_at(self.points, index + 1) - vertex_at(self.points, index)).normalize()
    }

    // The direction between those of two edges.
    #[tactic(auto, unfolding(crate::specs::Stations::mean_direction))]
    fn mean_direction(&self, i: usize, j: usize) -> Result<Vector2, Refusal>
        requires { (i < last_vertex self.now.points.now) × (j < last_vertex self.now.points.now) }
        ensures { result ≡ mean_direction self.now.points.now i j }
    {
        let a = self.edge_direction(i)?;
        let b = self.edge_direction(j)?;
        (a + b).normalize()
    }

    // The direction at an end: between the first and the last edge's where they meet, else that of the end's own edge.
    fn end_direction(&self, own: usize) -> Result<Vector2, Refusal>
        requires { own < last_vertex self.now.points.now }
        ensures { result ≡ cond (is_closed self.now.points.now self.now.tol) (mean_direction self.now.points.now 0 (last_vertex self.now.points.now - 1)) (edge_direction self.now.points.now own) }
    {
        if self.is_closed() {
            self.mean_direction(0, self.last_vertex() - 1)
        } else {
            self.edge_direction(own)
        }
    }

    // The direction at a vertex.
    fn vertex_direction(&self, index: usize) -> Result<Vector2, Refusal>
        requires { index < length self.now.points.now / 2 }
        ensures { result ≡ vertex_direction self.now.points.now self.now.tol index }
    {
        if index == 0 {
            self.end_direction(0)
        } else if index == self.last_vertex() {
            self.end_direction(index - 1)
        } else {
            self.mean_direction(index - 1, index)
        }
    }

    // ---- stations

    // The station at a vertex; the last is the last edge at fraction 1.
    #[tactic(auto, unfolding(crate::specs::Stations::at_vertex))]
    pub fn at_vertex(&self, index: usize) -> Result<CurveStation2, Refusal>
        requires { index < length self.now.points.now / 2 }
        ensures { result ≡ at_vertex self.now.points.now self.now.tol index }
    {
        let point = vertex_at(self.points, index);
        let direction = self.vertex_direction(index)?;
        if index == self.last_vertex() {
            return Ok(CurveStation2 {
                point,
                direction,
                index: index - 1,
                fraction: 1.0,
            });
        }
        Ok(CurveStation2 {
            point,
            direction,
            index,
            fraction: 0.0,
        })
    }

    // The station at the first point.
    pub fn at_front(&self) -> Result<CurveStation2, Refusal>
        ensures { result ≡ at_vertex self.now.points.now self.now.tol 0 }
    {
        self.at_vertex(0)
    }

    // The station at the last point.
    pub fn at_back(&self) -> Result<CurveStation2, Refusal>
        ensures { result ≡ at_vertex self.now.points.now self.now.tol (last_vertex self.now.points.now) }
    {
        self.at_vertex(self.last_vertex())
    }
}
