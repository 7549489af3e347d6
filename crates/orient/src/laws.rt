//! The law of the samples by curvature: the contract of a function without a parameter, whose body is empty.
ghost use Rattle.std.specs.Prelude.{◌≡◌, List, length, Ok};
ghost use Rattle.points.specs.declared.Point2.{Point2};
ghost use Rattle.orient.specs.Camber.{Camber};
ghost use Rattle.orient.specs.Curvature.{samples_of};

/// By curvature, the samples of any camber are fifty points where they aren't refused: none is dropped.
#[tactic(auto, using(crate::proofs::curvature::Laws::samples_fifty))]
pub fn samples_law()
    ensures { (camber : Camber) (samples : List Point2) → samples_of camber ≡ Ok samples → length samples ≡ 50 }
{}
