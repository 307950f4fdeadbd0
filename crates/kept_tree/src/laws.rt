// What follows of honest trees.
ghost use Rattle.std.specs.Prelude.{Bool, List};
ghost use Rattle.compile_model.specs.declared.outcome.Outcome.{Outcome};
ghost use Rattle.compile_model.specs.Content.{Content};
ghost use Rattle.tree_store.specs.declared.holding.Holding.{Holding};
ghost use Rattle.tree_store.specs.declared.key.BuildKey.{BuildKey};
ghost use Rattle.tree_store.specs.Slot.{Slot};
ghost use Rattle.honest_tree.specs.Given.{Given};
ghost use Rattle.honest_tree.specs.Honest.{Honest, IsHonest, IsHonestSlot};
ghost use Rattle.kept_tree.specs.Clearing.{ClearsPartly, IsLeftOf};
ghost use Rattle.kept_tree.specs.Rewriting.{IsRewriting, IsRewritingAt};

/// An honest folder is honest at each stop while it is emptied, and an honest tree after builds of it were cleared,
/// in full or in part.
pub fn clearing_is_honest()
    ensures stops { (compile : Content → Outcome) (known : List Given) (held image : Holding)
        → IsHonest compile known held → IsLeftOf held image → IsHonest compile known image }
    ensures tree { (compile : Content → Outcome) (known : List Given) (is : BuildKey → Bool)
        (old new : BuildKey → Slot)
        → Honest compile known old → ClearsPartly is old new → Honest compile known new }
{}

/// An honest folder is honest at each stop while its mark is written again, and an honest build after it.
pub fn rewriting_is_honest()
    ensures stops { (compile : Content → Outcome) (known : List Given) (held image : Holding)
        → IsHonest compile known held → IsRewriting held image → IsHonest compile known image }
    ensures build { (compile : Content → Outcome) (known : List Given) (old new : Slot)
        → IsHonestSlot compile known old → IsRewritingAt old new
        → IsHonestSlot compile known new }
{}
