// What is asked of a section.
ghost use Rattle.std.specs.Prelude.{◌≡◌};
ghost use Rattle.sections.specs.Asked.{closed_asked, length_asked, front_asked, back_asked, vertex_asked, at_length_asked, length_along_asked, closest_asked, crossing_asked, joined_asked};
ghost use Rattle.rummyteak.specs.Told.{told_as, told, given_line, crossing_cells, crossing_left, station_cells, station_left};

use crate::{given, telling};
use points::Point2;

// Whether a section is closed.
pub fn rummyteak_is_closed(section: &[f64], tol: f64, is_closed: &mut bool) -> u32
    ensures { (record { number = result; left = is_closed.new }) ≡ told is_closed.old (closed_asked section.now tol) }
{
    telling::tell(sections::is_closed(section, tol), is_closed)
}

// The length of a whole section.
pub fn rummyteak_length(section: &[f64], tol: f64, length: &mut f64) -> u32
    ensures { (record { number = result; left = length.new }) ≡ told length.old (length_asked section.now tol) }
{
    telling::tell(sections::length(section, tol), length)
}

// The station at the first point.
pub fn rummyteak_at_front(
    section: &[f64],
    tol: f64,
    station: &mut [f64; 5],
    index: &mut usize,
) -> u32
    ensures { (record { number = result; left = station_cells station.new index.new }) ≡ told_as station_left (station_cells station.old index.old) (front_asked section.now tol) }
{
    telling::tell_station(sections::at_front(section, tol), station, index)
}

// The station at the last point.
pub fn rummyteak_at_back(
    section: &[f64],
    tol: f64,
    station: &mut [f64; 5],
    index: &mut usize,
) -> u32
    ensures { (record { number = result; left = station_cells station.new index.new }) ≡ told_as station_left (station_cells station.old index.old) (back_asked section.now tol) }
{
    telling::tell_station(sections::at_back(section, tol), station, index)
}

// The station at a vertex.
pub fn rummyteak_at_vertex(
    section: &[f64],
    tol: f64,
    vertex: usize,
    station: &mut [f64; 5],
    index: &mut usize,
) -> u32
    ensures { (record { number = result; left = station_cells station.new index.new }) ≡ told_as station_left (station_cells station.old index.old) (vertex_asked section.now tol vertex) }
{
    telling::tell_station(sections::at_vertex(section, tol, vertex), station, index)
}

// The station at a length along.
pub fn rummyteak_at_length(
    section: &[f64],
    tol: f64,
    length: f64,
    station: &mut [f64; 5],
    index: &mut usize,
) -> u32
    ensures { (record { number = result; left = station_cells station.new index.new }) ≡ told_as station_left (station_cells station.old index.old) (at_length_asked section.now tol length) }
{
    telling::tell_station(sections::at_length(section, tol, length), station, index)
}

// The station nearest to a point.
pub fn rummyteak_at_closest_to_point(
    section: &[f64],
    tol: f64,
    x: f64,
    y: f64,
    station: &mut [f64; 5],
    index: &mut usize,
) -> u32
    ensures { (record { number = result; left = station_cells station.new index.new }) ≡ told_as station_left (station_cells station.old index.old) (closest_asked section.now tol (record { x = x; y = y })) }
{
    let p = Point2 { x, y };
    telling::tell_station(
        sections::at_closest_to_point(section, tol, p),
        station,
        index,
    )
}

// The length along of a fraction of an edge.
pub fn rummyteak_length_along(
    section: &[f64],
    tol: f64,
    index: usize,
    fraction: f64,
    length: &mut f64,
) -> u32
    ensures { (record { number = result; left = length.new }) ≡ told length.old (length_along_asked section.now tol index fraction) }
{
    telling::tell(
        sections::length_along(section, tol, index, fraction),
        length,
    )
}

// Where a line crosses a section, and on which edges.
pub fn rummyteak_crossing_line(
    section: &[f64],
    tol: f64,
    ox: f64,
    oy: f64,
    dx: f64,
    dy: f64,
    crossing: &mut [f64; 4],
    edges: &mut [usize; 2],
) -> u32
    ensures { (record { number = result; left = crossing_cells crossing.new edges.new }) ≡ told_as crossing_left (crossing_cells crossing.old edges.old) (crossing_asked section.now tol (given_line ox oy dx dy)) }
{
    let line = given::line(ox, oy, dx, dy);
    telling::tell_crossing(sections::crossing_line(section, tol, line), crossing, edges)
}

// The same, where hits near each other count as one.
pub fn rummyteak_joined_crossing(
    section: &[f64],
    tol: f64,
    ox: f64,
    oy: f64,
    dx: f64,
    dy: f64,
    crossing: &mut [f64; 4],
    edges: &mut [usize; 2],
) -> u32
    ensures { (record { number = result; left = crossing_cells crossing.new edges.new }) ≡ told_as crossing_left (crossing_cells crossing.old edges.old) (joined_asked section.now tol (given_line ox oy dx dy)) }
{
    let line = given::line(ox, oy, dx, dy);
    telling::tell_crossing(
        sections::joined_crossing(section, tol, line),
        crossing,
        edges,
    )
}
