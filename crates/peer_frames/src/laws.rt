//! What holds of frames, and of readers that are given bytes in any pieces.

ghost use Rattle.peer_frames.specs.Laws.{NoFrameBeginsAnother, FrontsAreFound, FrontsAreOne, FaultsStay, CutsAreOne, CutsAreFound, ChunkingIsNotSeen, ChunkingsAgree, FramesComeBack, BatchesAreOne};

/// No frame's spelling is a proper prefix of another's, and no two frames are spelled the same.
pub fn law_prefix()
    ensures { NoFrameBeginsAnother }
{}

/// In front of bytes there is exactly one of: a frame, the beginning of one, and a fault.
pub fn law_fronts()
    ensures found { FrontsAreFound }
    ensures one { FrontsAreOne }
{}

/// A fault stays in front of the bytes, whatever comes behind them.
pub fn law_faults()
    ensures { FaultsStay }
{}

/// Bytes are cut into frames in exactly one way.
pub fn law_cuts()
    ensures found { CutsAreFound }
    ensures one { CutsAreOne }
{}

/// In whatever pieces bytes come, and whenever a reader is asked, its answers are those of the whole.
pub fn law_chunking()
    ensures whole { ChunkingIsNotSeen }
    ensures agree { ChunkingsAgree }
{}

/// The bytes of a list of frames are cut into exactly these frames.
pub fn law_round_trip()
    ensures { FramesComeBack }
{}

/// No bytes hold two lists of batches, or have two ends.
pub fn law_batches()
    ensures { BatchesAreOne }
{}
