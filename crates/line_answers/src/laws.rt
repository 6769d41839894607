//! Laws of frames: each is the contract of a function that does nothing.

ghost use Rattle.std.specs.Prelude.{◌≡◌, ℕ, List, ◌++◌};
ghost use Rattle.kh_runs.specs.Replies.{Reply};
ghost use Rattle.line_answers.specs.Frames.{IsSmallFrame, frame};

/// A frame, whatever stands behind it, tells the number of its line, its field and its reply, and
/// where it ends: so frames are read in one way. Their numbers are below 2^64.
pub fn frames_tell_replies()
    ensures { (number field : ℕ) (reply : Reply) (more : List ℕ) (number' field' : ℕ) (reply' : Reply) (more' : List ℕ)
        → IsSmallFrame number field reply → IsSmallFrame number' field' reply'
        → frame number field reply ++ more ≡ frame number' field' reply' ++ more'
        → (number ≡ number') × (field ≡ field') × (reply ≡ reply') × (more ≡ more') }
{}
