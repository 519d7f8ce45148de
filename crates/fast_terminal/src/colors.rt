//! When lines are colored.

ghost use Rattle.std.specs.Prelude.{◌≡◌, ◌↔◌, IsSome, IfSome};
ghost use Rattle.fast_terminal.specs.meaning.Colors.{colored, word_of, IsWord};

/// When lines are colored.
#[derive(Clone, Copy, Debug, PartialEq, Eq)]
pub enum When {
    /// On a terminal, unless the environment says no.
    Auto,
    /// Always.
    Always,
    /// Never.
    Never,
}

impl When {
    /// Returns what a word says: `auto`, `always` or `never`.
    pub fn of(word: &str) -> Option<When>
        ensures word { IfSome result (λ when. word.now ≡ word_of when) }
        ensures variant { IsSome result ↔ (IsWord word.now) }
    {
        if word == "auto" {
            Some(When::Auto)
        } else if word == "always" {
            Some(When::Always)
        } else if word == "never" {
            Some(When::Never)
        } else {
            None
        }
    }
}

/// Returns whether lines are colored on a terminal or elsewhere, where the environment may say no.
pub fn is_colored(when: When, is_terminal: bool, says_no: bool) -> bool
    ensures { result ≡ colored when is_terminal says_no }
{
    match when {
        When::Auto => is_terminal && !says_no,
        When::Always => true,
        When::Never => false,
    }
}
