// What compiling gives.
ghost use Rattle.std.specs.Prelude.{◌≡◌};
ghost use Rattle.mx_base.specs.Listing.{listing_digest, rows_of};

use mx_base::{Bytes, Digest32, Files, Listing, Shared, listing_digest, listing_of};
use std::alloc::{AllocError, Global};

/// What a compiler answers for a job.
#[derive(Drop)]
pub struct Outcome {
    /// 0 where the job was built.
    pub status: u32,
    /// Warnings or errors.
    pub text: Bytes,
    /// The output files, none where the status isn't 0.
    pub files: Files,
    /// The listing of the output files.
    pub rows: Listing,
    /// The digest of that listing.
    pub digest: Digest32,
    pub ghost listed: { rows ≡ rows_of files },
    pub ghost digested: { digest ≡ listing_digest rows },
}

impl Outcome {
    ghost use Rattle.std.specs.Prelude.{◌≡◌, IfOk};
    ghost use Rattle.compile_model.specs.Content.{outcome_with};

    /// The outcome with this status, this text and these files.
    #[tactic(auto, using(mx_base::proofs::ListingLemmas::apart_from_order))]
    pub fn of(alloc: Global, status: u32, text: Bytes, files: Files) -> Result<Outcome, AllocError>
        ensures { IfOk result (λ outcome. outcome ≡ outcome_with status text files) }
    {
        let rows = listing_of(alloc, files.as_slice())?;
        let digest = listing_digest(alloc, &rows)?;
        Ok(Outcome {
            status,
            text,
            files,
            rows,
            digest,
        })
    }
}

/// Two shared copies of one outcome.
#[derive(Drop)]
pub struct Twin {
    /// For the event that tells it.
    pub event: Shared<Outcome>,
    /// For the fate of its job.
    pub fate: Shared<Outcome>,
}

impl Twin {
    ghost use Rattle.std.specs.Prelude.{◌≡◌, IfOk};

    /// Two copies of an outcome.
    pub fn of(alloc: Global, outcome: Outcome) -> Result<Twin, AllocError>
        ensures { IfOk result (λ twin. (twin.event ≡ outcome) × (twin.fate ≡ outcome)) }
    {
        let event = Shared::new(alloc, outcome)?;
        let fate = event.clone()?;
        Ok(Twin { event, fate })
    }
}

/// What a compiler says of a job whose output files lie elsewhere.
#[derive(Drop)]
pub struct Verdict {
    /// 0 where the job was built.
    pub status: u32,
    /// Warnings or errors.
    pub text: Bytes,
}

/// What became of a job.
#[derive(Drop)]
pub enum Fate {
    Built(Shared<Outcome>),
    Failed(Shared<Outcome>),
    /// It was not compiled, since this is its first need that isn't built.
    Skipped { need: u32 },
}
