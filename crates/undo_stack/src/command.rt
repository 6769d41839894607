//! What a line of words means.

ghost use Rattle.std.specs.Prelude.{◌≡◌, List, Option, ℕ, map};

/// What the words of a line can mean.
pub trait Command: Copy {
    // the command that words mean, if they mean one
    ghost meaning: { List (List ℕ) → Option Self };

    /// The command that the words of a line mean, if they mean one.
    fn of_words(words: &[&[u8]]) -> Option<Self>
        ensures { result ≡ meaning (map (λ word. word.now) words.now) };
}
