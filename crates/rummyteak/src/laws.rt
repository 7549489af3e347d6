//! What holds of the interface as a whole: each law is the contract of a function without a parameter, whose body is empty.
ghost use Rattle.std.specs.Prelude.{◌≡◌, Some};
ghost use Rattle.camber.specs.declared.state.MarchState.{MarchState};
ghost use Rattle.rummyteak.specs.Told.{given_state, state_left};
ghost use Rattle.rummyteak.specs.declared.given.StateCells.{StateCells};

/// A state that a spent march or going on writes is read back as that state, whatever stood in its cells before: so `camber::laws::pause_law` holds of the functions that C calls.
pub fn state_law()
    ensures { (before : StateCells) (s : MarchState) → given_state (state_left before (Some s)) ≡ s }
{}
