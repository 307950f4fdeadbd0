// Copies of declarations.
ghost use Rattle.std.specs.Prelude.{◌≡◌, IfOk};

use dep_options::Decl;
use std::alloc::{AllocError, Global};

pub(crate) fn copied(alloc: Global, decls: &[Decl]) -> Result<Vec<Decl>, AllocError>
    ensures { IfOk result (λ copies. copies.items ≡ decls.now) }
{
    let mut copies = Vec::new(alloc);
    for decl in decls {
        copies.push(decl.clone()?)?;
    }
    Ok(copies)
}
