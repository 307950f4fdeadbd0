// What a partition counts.

/// How many runs a partition has made, and how often it died.
#[derive(Clone, Copy, PartialEq, Eq)]
pub struct Counts {
    pub runs: u64,
    pub deaths: u64,
}

impl Counts {
    ghost use Rattle.std.specs.Prelude.{◌≡◌};
    ghost use Rattle.partition_face.specs.Counts.{both, fresh, raised_by};

    /// These and others, each up to 2^64 - 1, where it stands still.
    pub fn plus(self, more: Counts) -> Counts
        ensures { result ≡ both self more }
    {
        Counts {
            runs: self.runs.saturating_add(more.runs),
            deaths: self.deaths.saturating_add(more.deaths),
        }
    }

    // No count is past its last value.
    pub(crate) fn stand(self)
        ensures runs { raised_by 0 self.runs ≡ self.runs }
        ensures deaths { raised_by 0 self.deaths ≡ self.deaths }
    {}

    /// Nothing counted.
    pub fn new() -> Counts
        ensures { result ≡ fresh }
    {
        Counts { runs: 0, deaths: 0 }
    }
}
