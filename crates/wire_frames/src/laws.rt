ghost use Rattle.std.specs.Prelude.{ℕ, ◌≡◌, ◌<◌, ◌≤◌, ◌^◌, List, length};
ghost use Rattle.wire_frames.specs.Frames.{Frames, Rest};
ghost use Rattle.wire_frames.specs.Framings.{Call, GivesFrames};
ghost use Rattle.wire_frames.specs.RawCarries.{RawCarries};
ghost use Rattle.wire_frames.specs.RawFrames.{payload_limit};
ghost use Rattle.wire_frames.specs.declared.wires.LengthRule.{LengthRule};

/// What a raw frame carries, its payload and its reference, is read back from it.
pub fn raw_frames_carry()
    ensures { (payload : List ℕ) (reference : ℕ)
        → length payload ≤ payload_limit → reference < 2 ^ 16 → RawCarries payload reference }
{}

/// Bytes have frames and a rest in one way.
pub fn one_framing()
    ensures { (rule : LengthRule) (bytes : List ℕ) (frames others : List (List ℕ)) (rest other : Rest)
        → Frames rule bytes frames rest → Frames rule bytes others other → (frames ≡ others) × (rest ≡ other) }
{}

/// All bytes are frames and a rest.
pub fn some_framing()
    ensures { (rule : LengthRule) (bytes : List ℕ) → (frames : List (List ℕ)) × (rest : Rest)
        × Frames rule bytes frames rest }
{}

/// In any cut, and whenever frames are asked for, a framer gives the frames of all bytes that it was fed.
pub fn frames_in_any_cut()
    ensures { (rule : LengthRule) (calls : List Call) → GivesFrames rule calls }
{}
