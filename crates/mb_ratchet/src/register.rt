//! The register of the hardware ratchet.

ghost use Rattle.std.specs.Prelude.{◌≡◌, ◌+◌, ◌<◌, ℕ, Bool, true, false};

/// A device's power and the level of its ratchet, which only rises while power is on.
pub trait Register {
    /// The type of `rest`.
    ghost Rest: { Type 0 };

    /// All else that the register holds.
    ghost rest: { Self → Rest };

    /// Whether power is on.
    ghost power: { Self → Bool };

    /// The level, 0 to 3. It says nothing while power is off.
    ghost level: { Self → ℕ };

    /// Turns power on, at level 0.
    fn power_on(&mut self)
        requires { power self.old ≡ false }
        ensures power { power self.new ≡ true }
        ensures level { level self.new ≡ 0 }
        ensures rest { rest self.new ≡ rest self.old };

    /// Turns power off.
    fn power_off(&mut self)
        ensures power { power self.new ≡ false }
        ensures rest { rest self.new ≡ rest self.old };

    /// Raises the level by one.
    fn raise(&mut self)
        requires on { power self.old ≡ true }
        requires below { level self.old < 3 }
        ensures power { power self.new ≡ true }
        ensures level { level self.new ≡ level self.old + 1 }
        ensures rest { rest self.new ≡ rest self.old };
}
