// Texts that are UTF-8.
ghost use Rattle.std.specs.Prelude.{◌≡◌, nat_eq, string_bytes};
ghost use Rattle.std.specs.Cmp.Lexicographic.{pointwise, nat_list_eq_equiv, slice_cmp};
ghost use Rattle.std.specs.Cmp.{partial_equiv_from_equiv, partial_order_from_own_ties};
ghost use Rattle.std.proofs.Common.{rules};
ghost use Rattle.std.specs.Cmp.Rules.{comparing};
ghost use Rattle.std.specs.Ordering.{nat_cmp, as_partial_cmp};

use std::alloc::AllocError;
use std::cmp::Ordering;
use std::marker::Model;

/// A `String` that contracts see as the list of its bytes, and that is ordered by them.
#[derive(Drop)]
pub(crate) struct Utf8 {
    string: String,
}

impl Model for Utf8 {
    ghost use Rattle.std.specs.Prelude.{List, ℕ, string_bytes};

    ghost Value = { List ℕ };

    ghost view = { λ text. string_bytes text.string };
}

impl Utf8 {
    pub(crate) fn new(string: String) -> Utf8
        ensures { result ≡ string_bytes string }
    {
        Utf8 { string }
    }

    pub(crate) fn as_str(&self) -> &str
        ensures { result.now ≡ self.now }
    {
        self.string.as_str()
    }
}

impl Clone for Utf8 {
    ghost is_clone = { λ text copy. copy ≡ text };

    fn clone(&self) -> Result<Utf8, AllocError> {
        Ok(Utf8 {
            string: self.string.clone()?,
        })
    }
}

impl PartialEq for Utf8 {
    ghost eq = { pointwise nat_eq };

    ghost laws = { partial_equiv_from_equiv nat_list_eq_equiv };

    fn eq(&self, other: &Utf8) -> bool {
        self.as_str().as_bytes() == other.as_str().as_bytes()
    }
}

impl Eq for Utf8 {
    ghost laws = { nat_list_eq_equiv };
}

impl PartialOrd for Utf8 {
    ghost partial_cmp = { as_partial_cmp (slice_cmp nat_cmp) };

    ghost laws = { partial_order_from_own_ties (Prim.search (comparing, rules)) (Prim.search (comparing, rules)) };

    fn partial_cmp(&self, other: &Utf8) -> Option<Ordering> {
        Some(self.cmp(other))
    }
}

impl Ord for Utf8 {
    ghost cmp = { slice_cmp nat_cmp };

    ghost total = { Prim.search (comparing, rules) };

    ghost matches_partial_cmp = { Prim.search (comparing, rules) };

    ghost matches_eq = { Prim.search (comparing, rules) };

    fn cmp(&self, other: &Utf8) -> Ordering {
        self.as_str().as_bytes().cmp(other.as_str().as_bytes())
    }
}
