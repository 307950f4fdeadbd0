// The folders of a board.
ghost use Rattle.std.specs.Prelude.{◌≡◌, ◌<◌, Some, None, IfOk, IfErr, length, map, slice_get, slice_set};
ghost use Rattle.partition_board.specs.Homes.{AllHere};

use crate::gathering::{gather, settle};
use crate::memo::Memo;
use std::alloc::Global;
use std::marker::Model;

// The folders that are at home, by place, with room for the list of all of them, and what they were when they were
// handed in. Contracts see both lists.
#[derive(Drop)]
pub struct House<F> {
    handed: Memo<Vec<F>>,
    homes: Vec<Option<F>>,
    spare: Vec<F>,
}

impl<F> Model for House<F> {
    ghost use Rattle.std.specs.Prelude.{◌≡◌, ◌≤◌, [], length, vec_capacity};
    ghost use Rattle.partition_board.specs.Homes.{HouseView};

    ghost Value = { HouseView F };

    ghost view = { λ h. record { handed = h.handed.value.items; homes = h.homes.items } };

    ghost invariant = { λ h. (h.spare.items ≡ []) × (length h.homes.items ≤ vec_capacity h.spare) };
}

impl<F> House<F> {
    // All folders come home. Where there is no memory they are given back.
    pub(crate) fn begin(alloc: Global, mut folders: Vec<F>) -> Result<House<F>, Vec<F>>
        ensures housed { IfOk result (λ house. house ≡ record {
          handed = folders.items;
          homes = map Some folders.items;
        }) }
        ensures refused { IfErr result (λ back. back.items ≡ folders.items) }
    {
        let Ok(homes) = Vec::with_capacity(alloc, folders.len()) else {
            return Err(folders);
        };
        let handed = Memo::of(&folders);
        let homes = settle(&mut folders, homes);
        Ok(House {
            handed,
            homes,
            spare: folders,
        })
    }

    // The folder of a place leaves home.
    pub(crate) fn lend(&mut self, place: u32) -> F
        requires within { place < length self.old.homes }
        requires full { slice_get self.old.homes place ≡ Some None → ⊥ }
        ensures folder { slice_get self.old.homes place ≡ Some (Some result) }
        ensures homes { self.new ≡ record self.old { homes = slice_set self.old.homes place None } }
    {
        let Some(folder) = self.homes[place as usize].take() else {
            unreachable!();
        };
        folder
    }

    // The folder of a place comes back.
    pub(crate) fn take_in(&mut self, place: u32, folder: F)
        requires within { place < length self.old.homes }
        requires away { slice_get self.old.homes place ≡ Some None }
        ensures { self.new ≡ record self.old {
          homes = slice_set self.old.homes place (Some folder);
        } }
    {
        let old = self.homes[place as usize].replace(folder);
        let None = old else {
            unreachable!();
        };
    }

    // All folders, where none is away.
    pub(crate) fn gather(self) -> Vec<F>
        requires { AllHere self.homes }
        ensures { map Some result.items ≡ self.homes }
    {
        let House { homes, spare, .. } = self;
        gather(homes, spare)
    }
}
