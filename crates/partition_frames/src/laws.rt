// Laws of frames.
ghost use Rattle.std.specs.Prelude.{◌≡◌, ℕ, List, [], ◌∷◌, ◌++◌, Err};
ghost use Rattle.partition_frames.specs.declared.error.FrameError.{FrameError};
ghost use Rattle.partition_frames.specs.declared.frame.Frame.{Frame};
ghost use Rattle.partition_frames.specs.Frame.{Spells, Stands};
ghost use Rattle.partition_frames.specs.Reading.{IsReading, IsRefused, NeedsMore};
ghost use Rattle.partition_frames.specs.Stream.{Gives, GivesAll};

/// No bytes are those of two frames.
pub fn one_frame()
    ensures { (bytes : List ℕ) (a b : Frame) → Spells bytes a → Spells bytes b → a ≡ b }
{}

/// No frame's bytes are a proper beginning of another's.
pub fn no_frame_begins_another()
    ensures { (bytes more : List ℕ) (a b : Frame) → Spells bytes a → Spells (bytes ++ more) b
        → more ≡ [] }
{}

/// A refusal stays, whatever comes behind.
pub fn refusals_stay()
    ensures { (bytes more : List ℕ) (error : FrameError) → IsReading bytes (Err error)
        → IsReading (bytes ++ more) (Err error) }
{}

/// However a stream is cut, the frames that it gives until no further one stands there are the same, and so is what
/// is left.
pub fn cutting_changes_nothing()
    ensures { (stream left other : List ℕ) (a b : List Frame) → GivesAll stream a left
        → GivesAll stream b other → (a ≡ b) × (left ≡ other) }
{}

/// Where more bytes are needed no frame stands at the front.
pub fn none_stands_in_part()
    ensures { (bytes rest : List ℕ) (frame : Frame) → NeedsMore bytes → Stands bytes frame rest → ⊥ }
{}

/// Where bytes are refused no frame stands at the front.
pub fn none_stands_where_refused()
    ensures { (bytes rest : List ℕ) (error : FrameError) (frame : Frame)
        → IsRefused bytes error.cause error.at → Stands bytes frame rest → ⊥ }
{}

/// What a reader takes keeps to its stream: a piece goes behind it, and a frame comes from its front.
pub fn streams_go_on()
    ensures push { (stream left piece : List ℕ) (frames : List Frame) → Gives stream frames left
        → Gives (stream ++ piece) frames (left ++ piece) }
    ensures next { (stream left rest : List ℕ) (frames : List Frame) (frame : Frame)
        → Gives stream frames left → Stands left frame rest
        → Gives stream (frames ++ frame ∷ []) rest }
{}
