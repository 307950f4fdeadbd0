// The candidates of a package in their order.
ghost use Rattle.std.specs.Prelude.{◌≡◌, IfOk, map, position, zip};
ghost use Rattle.std.specs.Option.{option_copied};
ghost use Rattle.hex_registry.specs.Candidates.{AreCandidates, AreCandidatesOf, candidate_cmp, candidate_in, is_locked, is_place, locked_place, usable_from};
ghost use Rattle.hex_registry.specs.Shelves.{stock_of};

use crate::offer::Offer;
use crate::registry::Registry;
use crate::shelf::Stock;
use hex_messages::Release;
use mx_base::{AppName, Text};
use std::alloc::{AllocError, Global};
use std::cmp::Ordering;
use version_req::compare;

/// A usable release among others.
#[derive(Clone, Copy, Drop)]
struct Candidate<'a> {
    place: u64,
    locked: bool,
    offer: &'a Offer,
}

impl Registry {
    /// The places of all usable releases of a package: the locked one first, then those that aren't retired, last the
    /// retired ones; in both groups newer precedence first, and ties in the order of the message. A package that
    /// wasn't read has none. The locked release is the first usable one whose version has this text.
    pub fn candidates(
        &self,
        alloc: Global,
        name: &AppName,
        locked: Option<&Text>,
    ) -> Result<Vec<u64>, AllocError>
        ensures { IfOk result (λ places. AreCandidatesOf (stock_of self.now name.now)
            (option_copied locked.entry) places.items) }
    {
        match self.stock(name) {
            Some(stock) => stock.candidates(alloc, locked),
            None => Ok(Vec::new(alloc)),
        }
    }
}

impl Stock {
    fn candidates(&self, alloc: Global, locked: Option<&Text>) -> Result<Vec<u64>, AllocError>
        ensures { IfOk result (λ places.
            AreCandidates self.now (option_copied locked.entry) places.items) }
    {
        let mut candidates = usable(alloc, self, locked_place(self, locked))?;
        candidates.sort_unstable_by(|one, other| order_of(one, other));
        let places = places_of(alloc, &candidates)?;
        Ok(places)
    }
}

// The place of the locked release, where there is one.
fn locked_place(stock: &Stock, locked: Option<&Text>) -> Option<usize>
    ensures { result ≡ locked_place stock.now (option_copied locked.entry) }
{
    match locked {
        Some(text) => locked_among(
            text,
            stock.message.releases.as_slice(),
            stock.offers.as_slice(),
        ),
        None => None,
    }
}

fn locked_among(text: &Text, releases: &[Release], offers: &[Offer]) -> Option<usize>
    ensures { result ≡ position (is_locked text.now) (zip releases.now offers.now) }
{
    releases
        .iter()
        .zip(offers.iter())
        .position(|(release, offer)| is_locked(text, release, offer))
}

fn is_locked(text: &Text, release: &Release, offer: &Offer) -> bool
    ensures { result ≡ is_locked text.now (release.now, offer.now) }
{
    offer.is_usable() && release.version.as_slice() == text.as_slice()
}

// All usable releases in the order of the message.
fn usable(
    alloc: Global,
    stock: &Stock,
    locked: Option<usize>,
) -> Result<Vec<Candidate<'_>>, AllocError>
    ensures { IfOk result (λ candidates.
        map candidate_in candidates.items ≡ usable_from locked 0 stock.now.offers) }
{
    let mut candidates = Vec::new(alloc);
    for (place, offer) in stock.offers.as_slice().iter().enumerate() {
        if !offer.is_usable() {
            continue;
        }
        candidates.push(Candidate {
            place: place as u64,
            locked: is_at(locked, place),
            offer,
        })?;
    }
    Ok(candidates)
}

fn is_at(locked: Option<usize>, place: usize) -> bool
    ensures { result ≡ is_place locked place }
{
    match locked {
        Some(at) => at == place,
        None => false,
    }
}

fn order_of(one: &Candidate, other: &Candidate) -> Ordering
    ensures { result ≡ candidate_cmp (candidate_in one.now) (candidate_in other.now) }
{
    other
        .locked
        .cmp(&one.locked)
        .then(one.offer.retired.cmp(&other.offer.retired))
        .then(compare(&other.offer.version, &one.offer.version))
        .then(one.place.cmp(&other.place))
}

fn places_of(alloc: Global, candidates: &[Candidate]) -> Result<Vec<u64>, AllocError>
    ensures { IfOk result (λ places. places.items
        ≡ map (λ candidate. candidate.place) candidates.now) }
{
    let mut places = Vec::with_capacity(alloc, candidates.len())?;
    for candidate in candidates {
        places.push(candidate.place)?;
    }
    Ok(places)
}
