// Picks of releases.
ghost use Rattle.std.specs.Prelude.{◌≡◌, ◌↔◌, ◌≤◌, [], length, IsTrue, IfSome, IfNone, OnOk, OnErr, option_map, position, slice_get, bytes_eq};
ghost use Rattle.std.specs.Option.{option_copied};
ghost use Rattle.mx_base.specs.Order.{text_cmp};
ghost use Rattle.hex_registry.specs.Picks.{ArePicks, SaysPlace, adding, has_package, picked_of, place_for, with_picked, without_package};

use mx_base::AppName;
use std::alloc::{AllocError, Global};
use std::cmp::Ordering;
use std::marker::Model;

/// A package, and the place of its release in the package's message.
pub type Picked = (AppName, u64);

/// Packages in byte order, each once, with their releases, which contracts see as the list of them.
#[derive(Drop)]
pub struct Pick {
    picks: Vec<Picked>,
}

impl Model for Pick {
    ghost use Rattle.std.specs.Prelude.{List};
    ghost use Rattle.hex_registry.specs.Picks.{Picked, ArePicks};

    ghost Value = { List Picked };

    ghost view = { λ pick. pick.picks.items };

    ghost invariant = { λ pick. ArePicks pick.picks.items };
}

impl Pick {
    /// The pick of these; none where they aren't in byte order, or a package stands twice. It takes no memory.
    pub fn of(picks: Vec<Picked>) -> Option<Pick>
        ensures some { IfSome result (λ pick. pick ≡ picks.items) }
        ensures none { IfNone result (ArePicks picks.items → ⊥) }
    {
        if are_in_order(&picks) {
            Some(Pick { picks })
        } else {
            None
        }
    }

    /// The pick of nothing.
    pub fn new(alloc: Global) -> Pick
        ensures { result ≡ [] }
    {
        Pick {
            picks: Vec::new(alloc),
        }
    }

    /// Adds a package with its release, where the package isn't picked. A refusal leaves the pick as it was.
    pub fn insert(&mut self, name: AppName, place: u64) -> Result<(), AllocError>
        ensures ok { OnOk result (self.new ≡ adding self.old (name, place)) }
        ensures err { OnErr result (self.new ≡ self.old) }
    {
        match searched(&self.picks, &name) {
            Ok(_) => Ok(()),
            Err(at) => insert_at(&mut self.picks, at, name, place),
        }
    }

    /// Takes a package out, if it is picked.
    #[tactic(auto, using(crate::proofs::PickLists::without_in_order))]
    pub fn remove(&mut self, name: &AppName)
        ensures { self.new ≡ without_package self.old name.now }
    {
        without(&mut self.picks, name);
    }

    /// The packages and their releases.
    pub fn as_slice(&self) -> &[Picked]
        ensures value { result.now ≡ self.now }
        ensures in_order { ArePicks self.now }
    {
        self.picks.as_slice()
    }

    /// The place of a package's release, where the package is picked.
    pub fn place_of(&self, name: &AppName) -> Option<u64>
        ensures { result ≡ option_map (λ picked. picked.1) (picked_of self.now name.now) }
    {
        match self.picked(name) {
            Some((_, place)) => Some(*place),
            None => None,
        }
    }

    fn picked(&self, name: &AppName) -> Option<&Picked>
        ensures { option_copied result ≡ picked_of self.now name.now }
    {
        match self.index_of(name) {
            Some(place) => picked_in(self.as_slice(), place),
            None => None,
        }
    }

    /// Whether the package is picked.
    pub(crate) fn has(&self, name: &AppName) -> bool
        ensures { result ≡ has_package self.now name.now }
    {
        self.picked(name).is_some()
    }

    /// Where a package stands among those that are picked.
    pub(crate) fn index_of(&self, name: &AppName) -> Option<usize>
        ensures { result ≡ position (λ picked. bytes_eq name.now picked.0) self.now }
    {
        searched(self.as_slice(), name).ok()
    }
}

fn picked_in(picks: &[Picked], place: usize) -> Option<&Picked>
    ensures { option_copied result ≡ slice_get picks.now place }
{
    picks.get(place)
}

// Where a package stands among packages in byte order, and else where it would stand.
fn searched(picks: &[Picked], name: &AppName) -> Result<usize, usize>
    requires { ArePicks picks.now }
    ensures { SaysPlace picks.now name.now result }
{
    picks.binary_search_by(|picked| order_of(picked, name))
}

fn order_of(picked: &Picked, name: &AppName) -> Ordering
    ensures { result ≡ text_cmp picked.now.0 name.now }
{
    picked.0.cmp(name)
}

fn insert_at(
    picks: &mut Vec<Picked>,
    at: usize,
    name: AppName,
    place: u64,
) -> Result<(), AllocError>
    requires within { at ≤ length picks.old.items }
    requires place { at ≡ place_for picks.old.items name }
    ensures ok { OnOk result (picks.new.items ≡ with_picked picks.old.items (name, place)) }
    ensures err { OnErr result (picks.new.items ≡ picks.old.items) }
{
    picks.insert(at, (name, place))?;
    Ok(())
}

fn without(picks: &mut Vec<Picked>, name: &AppName)
    ensures { picks.new.items ≡ without_package picks.old.items name.now }
{
    picks.retain(|picked| !is_of(picked, name));
}

fn is_of(picked: &Picked, name: &AppName) -> bool
    ensures { result ≡ bytes_eq name.now picked.now.0 }
{
    name == &picked.0
}

fn are_in_order(picks: &[Picked]) -> bool
    ensures { IsTrue result ↔ ArePicks picks.now }
{
    picks.is_sorted_by(|one, next| one.0 < next.0)
}
