// Runs counted in units, and what a limit does to them: refinement and march are such runs. And the units of a run, counted within its limit.
#![tactic(auto)]

ghost use Rattle.std.specs.Prelude.{◌≡◌, ◌+◌, ◌≤◌, is_none, IfSome};
ghost use Rattle.runs.specs.Run.{under_limit};

// The units that a run has taken, and the limit they are held to.
#[derive(Clone, Copy)]
pub struct Units {
    pub limit: u32,
    pub taken: u32,
    pub ghost within: { taken ≤ limit },
}

impl Units {
    // The units of a run that has taken none.
    pub fn none_taken(limit: u32) -> Units
        ensures { (result.limit ≡ limit) × (result.taken ≡ 0) }
    {
        Units { limit, taken: 0 }
    }

    // One unit more, or none where the run is spent.
    pub fn take(self) -> Option<Units>
        ensures spent { is_none result ≡ under_limit self.limit self.taken }
        ensures one { IfSome result (λ u. (u.limit ≡ self.limit) × (u.taken ≡ self.taken + 1)) }
    {
        if self.limit <= self.taken {
            None
        } else {
            Some(Units {
                limit: self.limit,
                taken: self.taken + 1,
            })
        }
    }
}
