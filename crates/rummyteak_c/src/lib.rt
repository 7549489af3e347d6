// The C interface: exports each function of the crate `rummyteak` to C callers, under its name and its contract. include/rummyteak.h declares them.
#![tactic(auto)]

pub mod bytes;
pub mod circle;
pub mod curve;
pub mod edge;
pub mod list;
pub mod records;
pub mod run;
pub mod section;
pub mod stretch;
pub mod turning;

ghost use Rattle.std.specs.Prelude.{◌≡◌};
ghost use Rattle.root.specs.Sqrt.{root_asked};
ghost use Rattle.rummyteak.specs.Told.{told};

// The square root.
#[unsafe(no_mangle)]
pub extern "C" fn rummyteak_sqrt(x: f64, root: &mut f64) -> u32
    ensures { (record { number = result; left = root.new }) ≡ told root.old (root_asked x) }
{
    rummyteak::rummyteak_sqrt(x, root)
}
