//! The messages that are shown.

ghost use Rattle.std.specs.Prelude.{◌≡◌, ℕ, false, IfSome, IfNone, IfErr};
ghost use Rattle.fast_select.specs.meaning.Naming.{is_of_all, IsId, IsNamed, IsUnnamed, IsRightError};

use crate::selected::Chooser;
use fast_template::Templates;
use std::alloc::Global;
use thiserror::Error;

/// The messages of a stream that are shown, numbered from 0: those from a number on that have one of some templates, and of these the
/// first ones.
#[derive(Debug, Drop)]
pub struct Choice {
    /// The number of the first message that may be shown.
    pub from: u32,
    /// The greatest number of messages that are shown; `None` for all.
    pub limit: Option<u32>,
    /// The templates whose messages are shown, by number; `None` for all.
    pub only: Option<Vec<u32>>,
}

impl Choice {
    /// Returns whether all messages are shown.
    pub fn is_all(&self) -> bool
        ensures { result ≡ is_of_all self.now }
    {
        self.from == 0 && self.limit.is_none() && self.only.is_none()
    }

    /// Returns the chooser of these messages, at the start of a stream.
    pub fn chooser(&self) -> Chooser<'_>
        ensures skip { result.skip ≡ self.now.from }
        ensures rest { result.rest ≡ self.now.limit }
        ensures between { result.is_in ≡ false }
    {
        let only = match &self.only {
            None => None,
            Some(only) => Some(only.as_slice()),
        };
        Chooser::new(self.from, self.limit, only)
    }
}

/// A word that is neither the name nor the identifier of a template of a set.
#[derive(Clone, Copy, Debug, PartialEq, Eq, Error)]
#[error("\"{word}\" is neither the name nor the identifier of a template")]
pub struct UnknownTemplate<'a> {
    /// The word.
    pub word: &'a str,
}

/// The error of words that are to name templates.
#[derive(Clone, Copy, Debug, PartialEq, Eq)]
pub enum ChoiceError<'a> {
    /// A word names no template.
    Unknown(UnknownTemplate<'a>),
    /// An allocation failed.
    Memory,
}

/// Returns the number of an identifier in decimal digits, or `None` if it is not one of 32 bits.
fn id_of(word: &str) -> Option<u32>
    ensures some { IfSome result (IsId word.now) }
    ensures none { IfNone result ((id : ℕ) → IsId word.now id → ⊥) }
{
    match word.parse::<u32>() {
        Ok(id) => Some(id),
        Err(_) => None,
    }
}

/// Returns the number of the template that a word names, by its name or else by its identifier in decimal digits.
pub fn template_named(templates: &Templates, word: &str) -> Option<u32>
    ensures named { IfSome result (IsNamed templates.now word.now) }
    ensures unnamed { IfNone result (IsUnnamed templates.now word.now) }
{
    if let Some(number) = templates.by_name(word) {
        return Some(number);
    }
    match id_of(word) {
        Some(id) => templates.by_id(id),
        None => None,
    }
}

/// Returns the numbers of the templates that words name, which are separated by commas, each word by name or by identifier.
///
/// # Errors
///
/// `Unknown` with the first word that names no template; else `Memory` if an allocation failed.
pub fn templates_named<'a>(
    alloc: Global,
    templates: &Templates,
    words: &'a str,
) -> Result<Vec<u32>, ChoiceError<'a>>
    ensures { IfErr result (IsRightError templates.now) }
{
    let mut numbers = Vec::new(alloc);
    for word in words.split(',') {
        match template_named(templates, word) {
            None => return Err(ChoiceError::Unknown(UnknownTemplate { word })),
            Some(number) => {
                if numbers.push(number).is_err() {
                    return Err(ChoiceError::Memory);
                }
            }
        }
    }
    Ok(numbers)
}
