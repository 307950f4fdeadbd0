// What holds of the tree of picks, whoever searches it.
ghost use Rattle.std.specs.Prelude.{◌≡◌, ℕ, List, [], ◌∷◌, ◌++◌, None};
ghost use Rattle.std.specs.List.{Contains};
ghost use Rattle.hex_registry.specs.Picks.{Picked};
ghost use Rattle.hex_pick.specs.Outcome.{AreAllNodes, ComesWithin, HasNoPick, PassesLimit};
ghost use Rattle.hex_pick.specs.Problem.{IsProblem, Problem, next_needed};
ghost use Rattle.hex_pick.specs.Tree.{AreNodes, IsBest, IsPreferred, IsValidFor};

/// One pick is the best at most, and no two picks are each preferred to the other.
pub fn one_best()
    ensures best { (problem : Problem) (one other : List Picked) → IsProblem problem
        → IsBest problem one → IsBest problem other → one ≡ other }
    ensures order { (problem : Problem) (one other : List Picked) → IsProblem problem
        → IsPreferred problem one other → IsPreferred problem other one → ⊥ }
{}

/// The nodes make one list.
pub fn one_tree()
    ensures { (problem : Problem) (roots nodes others : List (List Picked)) →
        AreNodes problem roots nodes → AreNodes problem roots others → nodes ≡ others }
{}

/// The nodes make a list.
pub fn some_tree()
    ensures { (problem : Problem) (roots : List (List Picked)) →
        (nodes : List (List Picked)) × AreNodes problem roots nodes }
{}

/// The answers of a search exclude one another.
pub fn one_outcome()
    ensures limit_or_none { (problem : Problem) (limit : ℕ) (name : List ℕ) →
        PassesLimit problem limit → HasNoPick problem limit name → ⊥ }
    ensures limit_or_pick { (problem : Problem) (limit : ℕ) (pick : List Picked) →
        PassesLimit problem limit → IsValidFor problem pick → ComesWithin problem limit pick → ⊥ }
{}

/// The valid picks are the empty pick or nodes, namely those with nothing needed and undecided.
pub fn valid_are_nodes()
    ensures valid_node { (problem : Problem) (nodes : List (List Picked)) (pick : List Picked) →
        IsProblem problem → AreAllNodes problem nodes → IsValidFor problem pick →
        Contains ([] ∷ nodes) pick × (next_needed problem pick ≡ None) }
    ensures node_valid { (problem : Problem) (nodes : List (List Picked)) (pick : List Picked) →
        IsProblem problem → AreAllNodes problem nodes → Contains ([] ∷ nodes) pick →
        next_needed problem pick ≡ None → IsValidFor problem pick }
{}

/// The first valid pick, among the empty pick and then the nodes, is the best.
pub fn first_is_best()
    ensures { (problem : Problem) (nodes before after : List (List Picked)) (pick : List Picked) →
        IsProblem problem → AreAllNodes problem nodes → [] ∷ nodes ≡ before ++ pick ∷ after →
        ((other : List Picked) → Contains before other → IsValidFor problem other → ⊥) →
        IsValidFor problem pick → IsBest problem pick }
{}
