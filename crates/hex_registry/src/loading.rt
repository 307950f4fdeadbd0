// Reading the packages that wants come to.
ghost use Rattle.std.specs.Prelude.{◌≡◌, [], bytes_eq, slice_get, IsFalse, IfOk, OnOk};
ghost use Rattle.indexmap.specs.IndexSet.{insert_all};
ghost use Rattle.mx_base.specs.Blame.{Answers, Computes, fails};
ghost use Rattle.mx_base.specs.Layout.{is_in_build};
ghost use Rattle.mx_base.specs.Order.{bytes_at};
ghost use Rattle.tree_store.specs.Known.{OnlyReads, Reads, Told};
ghost use Rattle.hex_registry.specs.Blame.{blame_of};
ghost use Rattle.hex_registry.specs.Refusals.{wire_refused};
ghost use Rattle.hex_registry.specs.Loaded.{IsLoaded, IsMessage, SaysMessage, SaysOffer, SaysOffers, SaysStock, named_by_offer, named_by_stock, package_path, wanted_names};

use crate::error::{RegistryError, wire_refused};
use crate::offer::{Offer, Offers, demands_of, version_of};
use crate::registry::Registry;
use crate::shelf::{Shelf, Stock};
use crate::wants::Wants;
use hex_messages::{Package, Release, WireError, read_package};
use indexmap::IndexSet;
use mx_base::{AppName, Bytes, REGISTRY, RelPath, Text, copy_text};
use std::alloc::{AllocError, Global};
use tree_store::Store;

/// The message of a package, in the folder of its name.
const MESSAGE: &str = "package";

impl Registry {
    /// Reads the wanted packages in order, and then each package that is first named by a usable release's dependency
    /// whose app isn't pinned, in that order. Each is read once.
    ///
    /// # Errors
    ///
    /// At the first place met: `Read`; for a wanted package without a file `NoPackage`; `Wire`; `NameDiffers`;
    /// `BadVersion`. A package that only dependencies name has no candidates where it has no file.
    pub fn load<S: Store>(
        alloc: Global,
        store: &mut S,
        wants: &Wants,
    ) -> Result<Registry, RegistryError>
        ensures answer { Answers blame_of result
            (Told (S.known store.old) (λ files. IsLoaded files wants.now)) }
        ensures reads { OnlyReads (S.known store.old) (S.known store.new) (fails blame_of result) }
    {
        let mut names = wanted_names(alloc, wants)?;
        let wanted = names.len();
        let mut shelves = Vec::new(alloc);
        'reading: while let Some(name) = name_at(&names, shelves.len())? {
            let stock = load_stock(alloc, store, &name, shelves.len() < wanted)?;
            add_named(&mut names, wants, &stock)?;
            shelves.push(Shelf { name, stock })?;
        }
        Ok(Registry { shelves, names })
    }
}

// The names of the wanted packages, each at its first place.
fn wanted_names(alloc: Global, wants: &Wants) -> Result<IndexSet<AppName>, AllocError>
    ensures { IfOk result (λ names. names.keys ≡ insert_all bytes_eq [] (wanted_names wants.now)) }
{
    let mut names = IndexSet::new(alloc);
    for want in wants.wants.as_slice() {
        names.insert(want.package.clone()?)?;
    }
    Ok(names)
}

fn name_at(names: &IndexSet<AppName>, at: usize) -> Result<Option<AppName>, AllocError>
    ensures { IfOk result (λ name. name ≡ slice_get names.now.keys at) }
{
    match names.get_index(at) {
        Some(name) => Ok(Some(name.clone()?)),
        None => Ok(None),
    }
}

// Adds the packages that a package names, each at its first place.
fn add_named(
    names: &mut IndexSet<AppName>,
    wants: &Wants,
    stock: &Option<Stock>,
) -> Result<(), AllocError>
    ensures { OnOk result (names.new.keys
        ≡ insert_all bytes_eq names.old.keys (named_by_stock wants.now.pinned stock.now)) }
{
    let Some(stock) = stock else {
        return Ok(());
    };
    for offer in stock.offers.as_slice() {
        add_named_by(names, wants, offer)?;
    }
    Ok(())
}

#[tactic(auto, using(crate::proofs::Walks::insert_aside))]
fn add_named_by(
    names: &mut IndexSet<AppName>,
    wants: &Wants,
    offer: &Offer,
) -> Result<(), AllocError>
    ensures { OnOk result (names.new.keys
        ≡ insert_all bytes_eq names.old.keys (named_by_offer wants.now.pinned offer.now)) }
{
    for demand in offer.demands() {
        if wants.sets_aside(demand) {
            continue;
        }
        names.insert(demand.package.clone()?)?;
    }
    Ok(())
}

// What the registry has of a package.
fn load_stock<S: Store>(
    alloc: Global,
    store: &mut S,
    name: &AppName,
    wanted: bool,
) -> Result<Option<Stock>, RegistryError>
    ensures { Reads blame_of (S.known store.old) (S.known store.new) result
        (λ files. SaysStock wanted name.now (bytes_at (package_path name.now) files)) }
{
    let path = message_path(alloc, name)?;
    let bytes = store.get(alloc, &path)?;
    stock_of(alloc, name, wanted, bytes)
}

#[tactic(auto, using(crate::proofs::PathLemmas::name_is_segment, crate::proofs::PathLemmas::message_outside))]
fn message_path(alloc: Global, name: &AppName) -> Result<RelPath, AllocError>
    ensures place { IfOk result (λ path. path ≡ package_path name.now) }
    ensures outside { IfOk result (λ path. IsFalse (is_in_build path)) }
{
    let registry = RelPath::root(alloc).child(alloc, REGISTRY)?;
    let folder = registry.child(alloc, name.as_str())?;
    folder.child(alloc, MESSAGE)
}

// What there is under a name, of which a file was found or not.
fn stock_of(
    alloc: Global,
    name: &AppName,
    wanted: bool,
    bytes: Option<Bytes>,
) -> Result<Option<Stock>, RegistryError>
    ensures { Computes blame_of result (SaysStock wanted name.now bytes) }
{
    match bytes {
        Some(bytes) => Ok(Some(stock_of_message(alloc, name, bytes.as_slice())?)),
        None if wanted => Err(RegistryError::NoPackage(name.clone()?)),
        None => Ok(None),
    }
}

// What the message says that stands under a name.
fn stock_of_message(alloc: Global, name: &AppName, bytes: &[u8]) -> Result<Stock, RegistryError>
    ensures { Computes blame_of result (SaysMessage name.now bytes.now) }
{
    let message = message_of(alloc, name, bytes)?;
    if !is_named(&message, name) {
        return Err(RegistryError::NameDiffers {
            asked: name.clone()?,
            found: message.name,
        });
    }
    let offers = offers_of(alloc, name, &message)?;
    Ok(Stock { message, offers })
}

fn is_named(message: &Package, name: &AppName) -> bool
    ensures { result ≡ bytes_eq message.now.name name.now }
{
    message.name.as_slice() == name.as_str().as_bytes()
}

fn message_of(alloc: Global, name: &AppName, bytes: &[u8]) -> Result<Package, RegistryError>
    ensures { Computes blame_of result (IsMessage name.now bytes.now) }
{
    match read_package(alloc, bytes) {
        Ok(message) => Ok(message),
        Err(fault) => Err(refused(name, fault)?),
    }
}

fn refused(name: &AppName, fault: WireError) -> Result<RegistryError, AllocError>
    ensures { IfOk result (λ error. error ≡ wire_refused name.now fault) }
{
    Ok(wire_refused(name.clone()?, fault))
}

// What each release offers, or the first one whose version is none.
fn offers_of(alloc: Global, name: &AppName, message: &Package) -> Result<Offers, RegistryError>
    ensures { Computes blame_of result (SaysOffers name.now message.now) }
{
    let mut offers = Offers::new(alloc);
    for release in message.releases.as_slice() {
        offers.push(offer_of(alloc, name, &message.repository, release)?)?;
    }
    Ok(offers)
}

fn offer_of(
    alloc: Global,
    name: &AppName,
    repository: &Text,
    release: &Release,
) -> Result<Offer, RegistryError>
    ensures { Computes blame_of result (SaysOffer name.now repository.now release.now) }
{
    let Some(version) = version_of(alloc, &release.version)? else {
        return Err(RegistryError::BadVersion {
            package: name.clone()?,
            version: copy_text(&release.version)?,
        });
    };
    Ok(Offer {
        version,
        retired: release.retired.is_some(),
        demands: demands_of(alloc, repository, release)?,
    })
}
