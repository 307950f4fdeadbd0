// The words of a command line.
use std::alloc::AllocError;
use std::env;
use std::io::ErrorKind;

/// The words that the program was called with, after its own name. Words that aren't UTF-8 are none, so that the first
/// of them is refused.
///
/// # Errors
///
/// `AllocError` where there is not enough memory.
pub fn host_words(rt: &HostRuntime) -> Result<Vec<String>, AllocError> {
    match env::args(rt) {
        Ok(words) => words.skip(1).collect(rt.alloc()),
        Err(error) if error.kind() == ErrorKind::OutOfMemory => Err(AllocError),
        Err(_) => Ok(Vec::new(rt.alloc())),
    }
}
