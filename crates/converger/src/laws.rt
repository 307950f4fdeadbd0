// What holds of any rows. The functions do nothing: their contracts are the laws.
ghost use Rattle.std.specs.Prelude.{◌≡◌, ℕ, List, Option};
ghost use Rattle.semver.specs.Parse.{Parts};
ghost use Rattle.dep_rows.specs.declared.row.Row.{Row};
ghost use Rattle.converger.specs.Divergence.{AreDivergences};
ghost use Rattle.converger.specs.Reach.{AreReached};
ghost use Rattle.converger.specs.declared.divergence.Divergence.{Divergence};

/// An environment reaches one list of winners for a target.
pub fn one_reach()
    ensures { (rows : List Row) (env target : List ℕ) (places other : List ℕ) →
        AreReached rows env target places → AreReached rows env target other → places ≡ other }
{}

/// There is one list of all divergences.
pub fn one_divergence_list()
    ensures { (rows : List Row) (winners : List ℕ) (versions : List (Option Parts))
        (list other : List Divergence) → AreDivergences rows winners versions list →
        AreDivergences rows winners versions other → list ≡ other }
{}

/// Each environment has a list of the winners that it reaches for a target.
pub fn some_reach()
    ensures { (rows : List Row) (env target : List ℕ) →
        (places : List ℕ) × AreReached rows env target places }
{}

/// Rows and versions have a list of all divergences.
pub fn some_divergence_list()
    ensures { (rows : List Row) (winners : List ℕ) (versions : List (Option Parts)) →
        (list : List Divergence) × AreDivergences rows winners versions list }
{}
