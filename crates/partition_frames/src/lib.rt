//! Frames between processes, byte for byte.
//!
//! Each frame has one spelling, and no frame's bytes are the beginning of another's. `read_frame` answers the frame at
//! the front of some bytes, that more of them are needed, or where and why they are refused; `write_frame` gives the
//! bytes of a frame. A `FrameReader` gives the frames of a stream that comes in pieces, out of one buffer.
#![tactic(auto)]

mod error;
mod fields;
mod frame;
mod job;
mod laws;
mod limits;
mod lists;
mod parsing;
mod reader;
mod writing;

pub use error::{FrameCause, FrameError};
pub use frame::Frame;
pub use laws::{
    cutting_changes_nothing, no_frame_begins_another, none_stands_in_part,
    none_stands_where_refused, one_frame, refusals_stay, streams_go_on,
};
pub use limits::may_be_written;
pub use parsing::read_frame;
pub use reader::{FrameReader, MOST_HELD};
pub use writing::write_frame;
