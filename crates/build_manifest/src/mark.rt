// Marks.
ghost use Rattle.std.specs.Prelude.{◌≡◌};
ghost use Rattle.build_manifest.specs.Mark.{MarkView, IsMark};

use mx_base::{AppName, Bytes, Digest32, ListOf, Listing};
use std::marker::Model;

/// Digests, in the order of what they are of.
pub type Digests = ListOf<Digest32>;

/// The digest of the outputs of a need, and its app.
pub type Need = (Digest32, AppName);

/// The needs of a dependency.
pub type NeedDigests = ListOf<Need>;

/// The form of a mark.
#[derive(Drop)]
pub enum MarkFormat {
    /// The older form, which is still read.
    One,
    /// The form that is written, which also says of each source what was said about it.
    Two {
        /// For each source, in their order, the digest of the lines of the mark's text that are about it.
        diagnostics: Digests,
    },
}

/// What a built dependency was made from, and what it gave. The needs differ, and each number that the
/// text of the mark has is below 2^63.
#[derive(Drop)]
pub struct Mark {
    /// The form of its text.
    pub format: MarkFormat,
    /// All that was said of how it is compiled.
    pub options: Bytes,
    /// The source files.
    pub sources: Listing,
    /// What it needs.
    pub needs: NeedDigests,
    /// The output files.
    pub outputs: Listing,
    /// What the compiler wrote.
    pub text: Bytes,
}

impl Model for Mark {
    ghost use Rattle.build_manifest.specs.Mark.{MarkView, IsMark};

    ghost Value = { MarkView };

    ghost view = { λ mark. record {
      format = mark.format;
      options = mark.options;
      sources = mark.sources;
      needs = mark.needs;
      outputs = mark.outputs;
      text = mark.text;
    } };

    ghost invariant = { λ mark. IsMark (record {
      format = mark.format;
      options = mark.options;
      sources = mark.sources;
      needs = mark.needs;
      outputs = mark.outputs;
      text = mark.text;
    }) };
}
