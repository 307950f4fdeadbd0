// Why a requirement is not read.

/// Why a text gives no requirement.
#[derive(Clone, Copy, Debug, PartialEq, Eq, thiserror::Error)]
pub enum ReqError {
    /// The text spells no requirement.
    #[error("no requirement goes on at byte {at}")]
    Refused {
        /// The length of the longest prefix of the text that begins some requirement.
        at: u64,
    },
    #[error("out of memory")]
    OutOfMemory,
}
