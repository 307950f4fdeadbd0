// What follows of a generated project.
ghost use Rattle.std.specs.Prelude.{ℕ};
ghost use Rattle.unit_gen.specs.Dependency.{AreNeedsOf, drawn};

/// The needs of each dependency are dependencies before it, and none is named twice.
pub fn needs_come_before()
    ensures { (x number : ℕ) → AreNeedsOf number (drawn x number).needs }
{}
