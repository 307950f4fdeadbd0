// Listings of files.
ghost use Rattle.std.specs.Prelude.{◌≡◌, IsTrue, ◌↔◌, IfOk};
ghost use Rattle.std.specs.List.{All, IsDistinct};
ghost use Rattle.std.specs.List.Sorted.{IsPermutation};
ghost use Rattle.std.specs.Str.{bytes_eq};
ghost use Rattle.mx_base.specs.Order.{AreInOrder};
ghost use Rattle.mx_base.specs.Listing.{AreApart, AreRows, AreRowsInOrder, IsListingOf, IsRow, row_of, row_paths, rows_of};

use crate::digest::Digest32;
use crate::file::File;
use crate::row::FileRow;
use std::alloc::{AllocError, Global};
use std::marker::Model;

/// Rows of different paths, in the order of their paths, which contracts see as the list of them.
#[derive(Drop)]
pub struct Listing {
    rows: Vec<FileRow>,
}

impl Model for Listing {
    ghost use Rattle.std.specs.Prelude.{List};
    ghost use Rattle.mx_base.specs.declared.row.FileRow.{FileRow};

    ghost Value = { List FileRow };

    ghost use Rattle.mx_base.specs.Listing.{AreRows};

    ghost view = { λ listing. listing.rows.items };

    ghost invariant = { λ listing. AreRows listing.rows.items };
}

impl Listing {
    /// Rows that are in order already. It takes no memory.
    pub fn from_vec(rows: Vec<FileRow>) -> Listing
        requires { AreRows rows.items }
        ensures { result ≡ rows.items }
    {
        Listing { rows }
    }

    /// The rows.
    pub fn as_slice(&self) -> &[FileRow]
        ensures value { result.now ≡ self.now }
        ensures rows { AreRows self.now }
    {
        self.rows.as_slice()
    }
}

impl Clone for Listing {
    ghost use Rattle.std.specs.Prelude.{◌≡◌};

    ghost is_clone = { λ listing copy. copy ≡ listing };

    fn clone(&self) -> Result<Listing, AllocError> {
        Ok(Listing {
            rows: self.rows.clone()?,
        })
    }
}

/// The listing of files of different paths: the path, the length and the digest of each.
pub fn listing_of(alloc: Global, files: &[File]) -> Result<Listing, AllocError>
    requires { AreApart files.now }
    ensures rows { IfOk result (IsListingOf files.now) }
    ensures in_order { AreInOrder files.now → IfOk result (λ rows. rows ≡ rows_of files.now) }
{
    let mut rows = rows_of(alloc, files)?;
    put_in_order(&mut rows);
    Ok(Listing { rows })
}

fn rows_of(alloc: Global, files: &[File]) -> Result<Vec<FileRow>, AllocError>
    ensures rows { IfOk result (λ rows. rows.items ≡ rows_of files.now) }
    ensures each { IfOk result (λ rows. All IsRow rows.items) }
{
    let mut rows = Vec::with_capacity(alloc, files.len())?;
    for file in files {
        rows.push(row_of(file)?)?;
    }
    Ok(rows)
}

fn row_of(file: &File) -> Result<FileRow, AllocError>
    ensures row { IfOk result (λ row. row ≡ row_of file.now) }
    ensures sound { IfOk result IsRow }
{
    let bytes = file.bytes.as_slice();
    Ok(FileRow::new(file.path.clone()?, bytes.len() as u64, Digest32::of(bytes)))
}

// Sorts by the paths, where that is still to do.
fn put_in_order(rows: &mut Vec<FileRow>)
    requires { IsDistinct bytes_eq (row_paths rows.old.items) }
    ensures in_order { AreRowsInOrder rows.new.items }
    ensures same { IsPermutation rows.old.items rows.new.items }
    ensures kept { AreRowsInOrder rows.old.items → rows.new.items ≡ rows.old.items }
{
    if !are_in_order(rows.as_slice()) {
        rows.sort_unstable_by(|one, other| one.path.cmp(&other.path));
    }
}

fn are_in_order(rows: &[FileRow]) -> bool
    ensures { IsTrue result ↔ AreRowsInOrder rows.now }
{
    rows.is_sorted_by(|one, next| one.path < next.path)
}
