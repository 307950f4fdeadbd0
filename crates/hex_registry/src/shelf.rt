// What was read of a package.

use crate::offer::Offers;
use hex_messages::Package;
use mx_base::AppName;

/// A package as it was read, and what its releases offer.
#[derive(Drop)]
pub struct Stock {
    pub(crate) message: Package,
    pub(crate) offers: Offers,
}

/// The name of a package, and what the registry has of it: nothing where it has no file.
#[derive(Drop)]
pub struct Shelf {
    pub(crate) name: AppName,
    pub(crate) stock: Option<Stock>,
}
