// Single steps, which the C interface doesn't have.
use crate::asked::{NOTHING, Question, SECOND, Told};
use crate::numbers::{numbers_from, put};
use errors::Refusal;
use inscribed::Inscribed;
use inscribed::checked::circle_at;
use inscribed::store::WIDTH;
use line2::Line2;
use line2::surface2::SurfacePoint2;
use lists::ends;
use lists::ends::Pair;
use points::{AngleDir, Point2, Vector2, segment2};
use root::isqrt;

// ---- arguments

// The circle of the numbers from a place on.
pub(crate) fn circle_from(numbers: &[f64], at: usize) -> Inscribed {
    let circle: [f64; WIDTH] = numbers_from(numbers, at);
    circle_at(&circle, 0)
}

// ---- answers

fn ray_numbers(ray: SurfacePoint2) -> [f64; 4] {
    [ray.point.x, ray.point.y, ray.normal.x, ray.normal.y]
}

// Puts out the numbers of an answer, where there are any, and returns the number that is told.
fn tell<const N: usize>(answer: Result<Option<[f64; N]>, Refusal>, out: &mut [f64]) -> u32 {
    match answer {
        Ok(Some(numbers)) => {
            put(out, &numbers);
            0
        }
        Ok(None) => NOTHING,
        Err(r) => u32::from(r),
    }
}

// ---- steps

// The largest whole number whose square is at most a number that may have 32 bits; 0 for a larger one.
fn short_root(n: usize) -> u64 {
    u32::try_from(n).map_or(0, |n| u64::from(isqrt::isqrt_u32(n)))
}

// Points, vectors, rays and lines stand in the arguments from the third on, one behind the other.
pub(crate) fn ask_step(q: &Question<'_>, out: &mut [f64], told: &mut Told) -> bool {
    let [_, _, ax, ay, av, aw, bx, by, bv, bw, ..] = *q.args;
    let a = Point2 { x: ax, y: ay };
    let b = Point2 { x: av, y: aw };
    let c = Point2 { x: bx, y: by };
    let number = match q.name {
        b"rot90" => {
            let dir = if q.how == 0 {
                AngleDir::Cw
            } else {
                AngleDir::Ccw
            };
            let v = Vector2 { x: ax, y: ay }.rot90(dir);
            tell(Ok(Some([v.x, v.y])), out)
        }
        b"normalize" => {
            let unit = Vector2 { x: ax, y: ay }.normalize();
            tell(unit.map(|v| Some([v.x, v.y])), out)
        }
        b"halfway" => {
            let from = SurfacePoint2 {
                point: a,
                normal: Vector2 { x: av, y: aw },
            };
            let to = SurfacePoint2 {
                point: c,
                normal: Vector2 { x: bv, y: bw },
            };
            tell(from.halfway(to).map(|ray| Some(ray_numbers(ray))), out)
        }
        b"intersection_param" => {
            let line = Line2 {
                origin: a,
                direction: Vector2 { x: av, y: aw },
            };
            let edge = Line2 {
                origin: c,
                direction: Vector2 { x: bv, y: bw },
            };
            let met = line2::intersection_param(line, edge);
            tell(met.map(|params| params.map(|p| [p.t, p.s])), out)
        }
        b"closest_on_edge" => {
            let nearest = segment2::closest_on_edge(a, b, c);
            tell(nearest.map(|e| Some([e.fraction])), out)
        }
        b"end_camber_ray" => {
            let args = q.args;
            let end = Pair {
                before: circle_from(args, 2),
                last: circle_from(args, SECOND),
            };
            tell(
                ends::end_camber_ray(end).map(|ray| Some(ray_numbers(ray))),
                out,
            )
        }
        b"isqrt_u64" => {
            told[1] = isqrt::isqrt_u64(q.place as u64);
            0
        }
        b"isqrt_u32" => {
            told[1] = short_root(q.place);
            0
        }
        _ => return false,
    };
    told[0] = u64::from(number);
    true
}
