// Asks the library by the functions of the C interface, each known by its name, and for single steps that the interface doesn't have.
//
// Of the arguments the section tolerance t and the general tolerance g come first, then a length, a point, a vector, a line, or one or two circles. The first word told is 0
// for a result, 99 for "nothing", or the number of the refusal; the words behind it are a count, an edge, a place or a root, and the units, or a yes or no, and then the edges.
// What the interface writes by reference has what stands in the output or in the state before, or in the words told, so that a refusal which wrote something would show.
use crate::case::ARGUMENTS;
use crate::numbers::{numbers_from, put};
use inscribed::store::WIDTH;
use rummyteak::given::StateCells;
use rummyteak::{circle, curve, edge, run, section, turning};

mod pieces;
mod steps;
mod stores;

// What a function told: the words of a line that begins with told, in their order.
pub(crate) type Told = [u64; 6];

// What is asked: a function, its section and arguments, the list that is offered and how many of its circles are, a count, a vertex or an edge, a yes or no or a place, and a limit.
#[derive(Clone, Copy)]
pub(crate) struct Question<'a> {
    pub(crate) name: &'a [u8],
    pub(crate) section: &'a [f64],
    pub(crate) args: &'a [f64; ARGUMENTS],
    pub(crate) offered: &'a [f64],
    pub(crate) offered_count: usize,
    pub(crate) place: usize,
    pub(crate) how: u64,
    pub(crate) limit: u32,
}

// What is told where no circle is added, or lines are parallel.
const NOTHING: u32 = 99;

// Where the second circle stands in the arguments.
const SECOND: usize = 2 + WIDTH;

// Tells whether there are edges, and which.
fn tell_edges(told: &mut Told, found: bool, edges: [usize; 2]) {
    told[3] = u64::from(found);
    told[4] = edges[0] as u64;
    told[5] = edges[1] as u64;
}

// Each of these asks the function of a name and tells its words, or says that it is none of its own.

fn ask_curve(q: &Question<'_>, store: &[f64], out: &mut [f64], told: &mut Told) -> bool {
    let [t, _, x, y, u, v, ..] = *q.args;
    let mut count = told[1] as usize;
    let mut closed = false;
    let number = match q.name {
        b"from_points" => {
            let force = q.how != 0;
            curve::rummyteak_from_points(q.section, t, force, out, &mut count, &mut closed)
        }
        b"reversed" => curve::rummyteak_reversed(q.section, t, out, &mut count, &mut closed),
        b"camber_curve" => {
            curve::rummyteak_camber_curve(store, q.place, t, out, &mut count, &mut closed)
        }
        b"make_camber_curve" => curve::rummyteak_make_camber_curve(
            x,
            y,
            u,
            v,
            store,
            q.place,
            t,
            out,
            &mut count,
            &mut closed,
        ),
        _ => return false,
    };
    told[0] = u64::from(number);
    told[1] = count as u64;
    told[2] = u64::from(closed);
    true
}

// Whether a section is closed or open at an end, or circles were turned.
fn ask_yes(q: &Question<'_>, store: &mut [f64], told: &mut Told) -> bool {
    let [t, g, x, y, ..] = *q.args;
    let count = q.place;
    let mut yes = false;
    let number = match q.name {
        b"is_closed" => section::rummyteak_is_closed(q.section, t, &mut yes),
        b"is_open_at_end" => edge::rummyteak_is_open_at_end(
            q.section,
            t,
            g,
            store,
            count,
            q.how != 0,
            &mut yes,
        ),
        b"tmax_fwd" => turning::rummyteak_orient_tmax_fwd(store, count, &mut yes),
        b"airflow" => turning::rummyteak_orient_airflow(x, y, store, count, &mut yes),
        b"fwd" => turning::rummyteak_orient_fwd(x, y, store, count, &mut yes),
        b"upper" => turning::rummyteak_orient_upper(x, y, store, count, &mut yes),
        b"lower" => turning::rummyteak_orient_lower(x, y, store, count, &mut yes),
        b"curvature" => turning::rummyteak_orient_curvature(store, count, &mut yes),
        _ => return false,
    };
    told[0] = u64::from(number);
    told[1] = u64::from(yes);
    true
}

fn ask_number(q: &Question<'_>, out: &mut [f64], told: &mut Told) -> bool {
    let [t, _, x, ..] = *q.args;
    let [mut value]: [f64; 1] = numbers_from(out, 0);
    let number = match q.name {
        b"length" => section::rummyteak_length(q.section, t, &mut value),
        b"length_along" => { section::rummyteak_length_along(q.section, t, q.place, x, &mut value) }
        b"sqrt" => rummyteak::rummyteak_sqrt(x, &mut value),
        _ => return false,
    };
    put(out, &[value]);
    told[0] = u64::from(number);
    true
}

fn ask_station(q: &Question<'_>, out: &mut [f64], told: &mut Told) -> bool {
    let [t, _, x, y, ..] = *q.args;
    let mut station = numbers_from(out, 0);
    let mut index = told[1] as usize;
    let number = match q.name {
        b"at_front" => section::rummyteak_at_front(q.section, t, &mut station, &mut index),
        b"at_back" => section::rummyteak_at_back(q.section, t, &mut station, &mut index),
        b"at_vertex" => {
            section::rummyteak_at_vertex(q.section, t, q.place, &mut station, &mut index)
        }
        b"at_length" => section::rummyteak_at_length(q.section, t, x, &mut station, &mut index),
        b"at_closest_to_point" => {
            section::rummyteak_at_closest_to_point(q.section, t, x, y, &mut station, &mut index)
        }
        _ => return false,
    };
    put(out, &station);
    told[0] = u64::from(number);
    told[1] = index as u64;
    true
}

// Crossings tell edges where there is a result.
fn ask_crossing(q: &Question<'_>, out: &mut [f64], told: &mut Told) -> bool {
    let [t, _, x, y, dx, dy, ..] = *q.args;
    let mut line = numbers_from(out, 0);
    let mut edges = [0; 2];
    let number = match q.name {
        b"crossing_line" => {
            section::rummyteak_crossing_line(q.section, t, x, y, dx, dy, &mut line, &mut edges)
        }
        b"joined_crossing" => {
            section::rummyteak_joined_crossing(q.section, t, x, y, dx, dy, &mut line, &mut edges)
        }
        _ => return false,
    };
    put(out, &line);
    told[0] = u64::from(number);
    tell_edges(told, number == 0, edges);
    true
}

fn ask_circle(q: &Question<'_>, out: &mut [f64], told: &mut Told) -> bool {
    let [t, g, x, y, dx, dy, ..] = *q.args;
    let mut c = numbers_from(out, 0);
    let number = match q.name {
        b"inscribed_from_crossing" => {
            circle::rummyteak_inscribed_from_crossing(q.section, t, g, x, y, dx, dy, &mut c)
        }
        b"try_inscribed" => {
            let mut edges = [0; 2];
            let number = circle::rummyteak_try_inscribed(
                q.section, t, g, x, y, dx, dy, &mut c, &mut edges,
            );
            tell_edges(told, number == 0, edges);
            number
        }
        b"inscribed_refined" => {
            let args = q.args;
            let a = numbers_from(args, 2);
            let b = numbers_from(args, SECOND);
            let mut added = true;
            let number = circle::rummyteak_inscribed_refined(
                q.section, t, g, &a, &b, &mut c, &mut added,
            );
            if added { number } else { NOTHING }
        }
        _ => return false,
    };
    put(out, &c);
    told[0] = u64::from(number);
    true
}

// A refinement by the entry that is named, and its ending.
fn ask_refinement(q: &Question<'_>, store: &mut [f64], count: &mut usize, units: &mut u32) -> u32 {
    let args = q.args;
    let [t, g, ..] = *args;
    let c = numbers_from(args, 2);
    match q.name {
        b"refine_and_push_cell" => run::rummyteak_refine_and_push_cell(
            q.section, t, g, store, q.place, &c, q.limit, count, units,
        ),
        _ => run::rummyteak_refine_and_push(
            q.section, t, g, store, q.place, &c, q.limit, count, units,
        ),
    }
}

// A list offered by the entry that is named, and its ending.
fn ask_offers(q: &Question<'_>, store: &mut [f64], count: &mut usize, units: &mut u32) -> u32 {
    let [t, g, ..] = *q.args;
    match q.name {
        b"refine_all_cell" => run::rummyteak_refine_all_cell(
            q.section,
            t,
            g,
            store,
            q.place,
            q.offered,
            q.offered_count,
            q.limit,
            count,
            units,
        ),
        _ => run::rummyteak_refine_all(
            q.section,
            t,
            g,
            store,
            q.place,
            q.offered,
            q.offered_count,
            q.limit,
            count,
            units,
        ),
    }
}

// A march by the entry that is named, and its ending. It tells edges where it says that it has them.
fn ask_march(
    q: &Question<'_>,
    store: &mut [f64],
    state: &mut StateCells,
    count: &mut usize,
    units: &mut u32,
    told: &mut Told,
) -> u32 {
    let [t, g, x, y, dx, dy, ..] = *q.args;
    let mut edges = [0; 2];
    let mut found = false;
    let number = match q.name {
        b"march_cell" => run::rummyteak_march_cell(
            q.section, t, g, x, y, dx, dy, store, q.limit, count, units, &mut edges, &mut found,
            state,
        ),
        _ => run::rummyteak_march(
            q.section, t, g, x, y, dx, dy, store, q.limit, count, units, &mut edges, &mut found,
            state,
        ),
    };
    tell_edges(told, found, edges);
    number
}

// A march that goes on from a state by the entry that is named, and its ending.
fn ask_going(
    q: &Question<'_>,
    store: &mut [f64],
    state: &mut StateCells,
    count: &mut usize,
    units: &mut u32,
) -> u32 {
    let [t, g, ..] = *q.args;
    match q.name {
        b"go_on_cell" => run::rummyteak_go_on_cell(
            q.section, t, g, store, q.place, state, q.limit, count, units,
        ),
        _ => run::rummyteak_go_on(
            q.section, t, g, store, q.place, state, q.limit, count, units,
        ),
    }
}

// A fit puts out its point.
fn ask_run(
    q: &Question<'_>,
    store: &mut [f64],
    out: &mut [f64],
    state: &mut StateCells,
    told: &mut Told,
) -> bool {
    let [t, g, x, y, dx, dy, ..] = *q.args;
    let mut count = told[1] as usize;
    let mut units = u32::try_from(told[2]).unwrap_or(0);
    let number = match q.name {
        b"refine_and_push" | b"refine_and_push_cell" => {
            ask_refinement(q, store, &mut count, &mut units)
        }
        b"refine_all" | b"refine_all_cell" => ask_offers(q, store, &mut count, &mut units),
        b"march" | b"march_cell" => ask_march(q, store, state, &mut count, &mut units, told),
        b"go_on" | b"go_on_cell" => ask_going(q, store, state, &mut count, &mut units),
        b"thin" => {
            run::rummyteak_thin(
                q.section, t, g, store, q.place, q.limit, &mut count, &mut units,
            )
        }
        b"extract_circles" => run::rummyteak_extract_circles(
            q.section, t, g, x, y, dx, dy, store, q.limit, &mut count, &mut units,
        ),
        b"fit_open_edge" => {
            let mut p = numbers_from(out, 0);
            let number = edge::rummyteak_fit_open_edge(
                q.section,
                t,
                g,
                store,
                q.place,
                q.how != 0,
                q.limit,
                &mut p,
                &mut count,
                &mut units,
            );
            put(out, &p);
            number
        }
        _ => return false,
    };
    told[0] = u64::from(number);
    told[1] = count as u64;
    told[2] = u64::from(units);
    true
}

// Asks a function, and says whether there is one of that name.
pub(crate) fn ask(
    q: &Question<'_>,
    store: &mut [f64],
    out: &mut [f64],
    state: &mut StateCells,
    told: &mut Told,
) -> bool {
    ask_curve(q, store, out, told)
        || ask_yes(q, store, told)
        || ask_number(q, out, told)
        || ask_station(q, out, told)
        || ask_crossing(q, out, told)
        || ask_circle(q, out, told)
        || ask_run(q, store, out, state, told)
        || stores::ask_list(q, store, out, told)
        || steps::ask_step(q, out, told)
        || pieces::ask_piece(q, store, out, told)
}
