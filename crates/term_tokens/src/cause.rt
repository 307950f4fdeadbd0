// Why a text is not read.
ghost use Rattle.std.specs.Prelude.{◌≡◌};
ghost use Rattle.term_tokens.specs.Said.{cause_said, unsupported_said};

/// Why a text is not read.
#[derive(Clone, Copy, Debug, PartialEq, Eq, Drop)]
pub enum TermCause {
    /// What a text may have elsewhere and is not read here.
    Unsupported(Feature),
    /// A backslash that begins no escape.
    BadEscape,
    /// Bytes that are not UTF-8.
    BadUtf8,
    /// An integer that 128 bits do not hold.
    NumberTooBig,
    /// More levels than are read.
    TooDeep,
    /// A map's key that equals an earlier one of the map.
    DuplicateKey,
    /// More after the whole term.
    TrailingText,
    /// The text ends too early.
    Unclosed,
    /// What no text of the grammar has there.
    Unexpected,
    /// More bytes than are read.
    TooLong,
    /// There was not enough memory. This says nothing of the text.
    OutOfMemory,
}

/// What a text may have elsewhere and is not read here.
#[derive(Clone, Copy, Debug, PartialEq, Eq, Drop)]
pub enum Feature {
    /// `'`.
    Charlist,
    /// `~`, but for `~w(`.
    Sigil,
    /// Three `"`.
    Heredoc,
    /// `#` before `{` in a string or in words.
    Interpolation,
    /// `.` between digits.
    Float,
    /// A name that begins with a capital.
    Alias,
    /// `<<`.
    Bits,
}

impl TermCause {
    /// Its name, with the feature's where it has one.
    pub fn said(self) -> &'static [u8]
        ensures { result.now ≡ cause_said self }
    {
        match self {
            TermCause::Unsupported(feature) => feature.unsupported(),
            TermCause::BadEscape => b"BadEscape",
            TermCause::BadUtf8 => b"BadUtf8",
            TermCause::NumberTooBig => b"NumberTooBig",
            TermCause::TooDeep => b"TooDeep",
            TermCause::DuplicateKey => b"DuplicateKey",
            TermCause::TrailingText => b"TrailingText",
            TermCause::Unclosed => b"Unclosed",
            TermCause::Unexpected => b"Unexpected",
            TermCause::TooLong => b"TooLong",
            TermCause::OutOfMemory => b"OutOfMemory",
        }
    }
}

impl Feature {
    // That it isn't read.
    fn unsupported(self) -> &'static [u8]
        ensures { result.now ≡ unsupported_said self }
    {
        match self {
            Feature::Charlist => b"Unsupported(Charlist)",
            Feature::Sigil => b"Unsupported(Sigil)",
            Feature::Heredoc => b"Unsupported(Heredoc)",
            Feature::Interpolation => b"Unsupported(Interpolation)",
            Feature::Float => b"Unsupported(Float)",
            Feature::Alias => b"Unsupported(Alias)",
            Feature::Bits => b"Unsupported(Bits)",
        }
    }
}
