// The C interface: one function for each entry point of the library. The crate `rummyteak_c` exports them to C, each under its name and its contract. Each returns document 01's or 02's number of its ending, 0 for a result, and writes its values only where there is a result;
// a run writes its count and its units wherever it was not refused on entry.
#![tactic(auto)]

pub mod bytes;
pub mod circle;
pub mod curve;
pub mod edge;
pub mod given;
pub mod laws;
pub mod list;
pub mod records;
pub mod run;
pub mod section;
pub mod stretch;
mod telling;
pub mod turning;

ghost use Rattle.std.specs.Prelude.{◌≡◌};
ghost use Rattle.root.specs.Sqrt.{root_asked};
ghost use Rattle.rummyteak.specs.Told.{told};

// The square root.
pub fn rummyteak_sqrt(x: f64, root: &mut f64) -> u32
    ensures { (record { number = result; left = root.new }) ≡ told root.old (root_asked x) }
{
    telling::tell(root::sqrt(x), root)
}
