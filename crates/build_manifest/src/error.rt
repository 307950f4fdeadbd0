// Why a mark is not read.

/// Why bytes give no mark.
#[derive(Clone, Copy, Debug, PartialEq, Eq, thiserror::Error)]
pub enum MarkError {
    /// The bytes are not the text of a mark.
    #[error("no mark goes on at byte {at}")]
    Refused {
        /// The length of the longest prefix of the bytes that begins some mark, of either form.
        at: u64,
    },
    /// There was not enough memory. This says nothing of the bytes.
    #[error("out of memory")]
    OutOfMemory,
}
