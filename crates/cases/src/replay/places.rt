// Numbers that aren't finite, put in every place of what is handed in.
use crate::case::Case;
use crate::table::count;

const NOT_FINITE: [f64; 3] = [f64::NAN, f64::INFINITY, f64::NEG_INFINITY];

// Whether the function that word 4 of the line names refuses a number in a place by the number in word 3, with the count in word 7 and no unit, and leaves store and output as they were.
fn is_refused(line: &[u8], place: usize, bad: f64, case: &mut Case) -> bool {
    let old = case.replace(place, bad);
    case.ask(line, 4, 9);
    case.replace(place, old);
    case.told[..3] == [count(line, 3) as u64, count(line, 7) as u64, 0]
        && case.left.is_same(&case.kept)
}

// Whether each of the three is refused in each place from word 1 of the line to below word 2.
pub(crate) fn are_bad(line: &[u8], case: &mut Case) -> bool {
    case.kept = case.left;
    for place in count(line, 1)..count(line, 2) {
        for bad in NOT_FINITE {
            if !is_refused(line, place, bad, case) {
                return false;
            }
        }
    }
    true
}
