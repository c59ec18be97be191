// Worked examples of frames, proved by computation.
ghost use Rattle.std.specs.Prelude.{◌≡◌, [], ◌∷◌, length, replicate, Some, None};
ghost use Rattle.message_frames.specs.Frames.{frame_of, first_frame, frame_size, cut_frames};

/// Two frames in a row, and one octet left.
pub fn two_frames_row()
    ensures { cut_frames (0 ∷ 3 ∷ 7 ∷ 8 ∷ 9 ∷ 0 ∷ 1 ∷ 5 ∷ 0 ∷ [])
        ≡ record { messages = (7 ∷ 8 ∷ 9 ∷ []) ∷ (5 ∷ []) ∷ []; left = 0 ∷ [] } }
{}

/// A message of no octets, and one of 258, whose length is written 1, 2.
pub fn lengths_row()
    ensures empty { frame_of [] ≡ 0 ∷ 0 ∷ [] }
    ensures empty_read { cut_frames (0 ∷ 0 ∷ 0 ∷ 1 ∷ 5 ∷ []) ≡ record { messages = [] ∷ (5 ∷ []) ∷ []; left = [] } }
    ensures long { frame_of (replicate 258 0) ≡ 1 ∷ 2 ∷ replicate 258 0 }
    ensures size { frame_size (0 ∷ 3 ∷ 7 ∷ []) ≡ 5 }
    ensures long_read { first_frame (1 ∷ 2 ∷ replicate 259 0) ≡ Some (replicate 258 0, 0 ∷ []) }
{}

/// Octets without a whole frame: none at all, half a length, and fewer octets than the length says.
pub fn cut_off_row()
    ensures none { first_frame [] ≡ None }
    ensures half { first_frame (0 ∷ []) ≡ None }
    ensures short { first_frame (0 ∷ 3 ∷ 7 ∷ 8 ∷ []) ≡ None }
    ensures left { cut_frames (0 ∷ 3 ∷ 7 ∷ 8 ∷ []) ≡ record { messages = []; left = 0 ∷ 3 ∷ 7 ∷ 8 ∷ [] } }
{}
