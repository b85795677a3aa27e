//! Fractions.
ghost use Rattle.std.specs.Prelude.{◌≡◌, pos, ◌<ℤ◌};

use std::marker::Model;

/// A coefficient that a `th-lemma` step gives: a fraction over a positive number.
#[derive(Clone, Copy, PartialEq, Eq, Debug)]
pub struct Weight {
    above: i128,
    below: i128,
}

impl Model for Weight {
    ghost use Rattle.std.specs.Prelude.{pos, ◌<ℤ◌};
    ghost use Rattle.proof_plan.specs.Weights.{WeightValue};

    ghost Value = { WeightValue };

    ghost view = { λ w. record { above = w.above; below = w.below } };

    ghost invariant = { λ w. pos 0 <ℤ w.below };

    ghost inverse = { λ v. record { above = v.above; below = v.below } };
}

impl Weight {
    /// The fraction `above / below`.
    pub fn new(above: i128, below: i128) -> Weight
        requires { pos 0 <ℤ below }
        ensures { result ≡ record { above = above; below = below } }
    {
        Weight { above, below }
    }

    /// What stands above the line.
    pub fn above(self) -> i128
        ensures { result ≡ self.above }
    {
        self.above
    }

    /// What stands below the line, which is positive.
    pub fn below(self) -> i128
        ensures is { result ≡ self.below }
        ensures positive { pos 0 <ℤ result }
    {
        self.below
    }
}
