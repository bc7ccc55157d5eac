//! The words behind the first one of a line.

ghost use Rattle.std.specs.Prelude.{◌≡◌, ◌∷◌, [], option_map, IsTrue, ◌↔◌};
ghost use Rattle.cluster_script.specs.ScriptWords.{words_of, one_of, two_of, three_of, four_of};

use ff_script::cut;
use std::marker::Model;

/// Words, with one space between two. Clauses see them as a list.
#[derive(Debug, Drop)]
pub struct Args<'a> {
    // no text is no words
    text: Option<&'a [u8]>,
}

impl<'a> Model for Args<'a> {
    ghost use Rattle.std.specs.Prelude.{ℕ, List, option_map};
    ghost use Rattle.cluster_script.specs.ScriptWords.{args_in};

    ghost Value = { List (List ℕ) };

    ghost view = { λ a. args_in (option_map (λ t. t.now) a.text) };
}

/// The first word of a line, and those behind it.
pub fn split_first(line: &[u8]) -> (&[u8], Args<'_>)
    ensures { words_of line.now ≡ result.0.now ∷ result.1 }
{
    match cut(b' ', line) {
        Some((word, behind)) => (word, Args { text: Some(behind) }),
        None => (line, Args { text: None }),
    }
}

impl<'a> Args<'a> {
    /// There is none.
    pub fn is_empty(&self) -> bool
        ensures { IsTrue result ↔ (self.now ≡ []) }
    {
        self.text.is_none()
    }

    /// The only one.
    pub fn one(&self) -> Option<&'a [u8]>
        ensures { option_map (λ a. a.now) result ≡ one_of self.now }
    {
        let text = self.text?;
        match cut(b' ', text) {
            Some(_) => None,
            None => Some(text),
        }
    }

    /// Both, where there are two.
    pub fn two(&self) -> Option<(&'a [u8], &'a [u8])>
        ensures { option_map (λ p. (p.0.now, p.1.now)) result ≡ two_of self.now }
    {
        let (first, behind) = cut(b' ', self.text?)?;
        let second = Args { text: Some(behind) }.one()?;
        Some((first, second))
    }

    /// All, where there are three.
    pub fn three(&self) -> Option<(&'a [u8], &'a [u8], &'a [u8])>
        ensures { option_map (λ p. (p.0.now, p.1.now, p.2.now)) result ≡ three_of self.now }
    {
        let (first, behind) = cut(b' ', self.text?)?;
        let (second, third) = Args { text: Some(behind) }.two()?;
        Some((first, second, third))
    }

    /// All, where there are four.
    pub fn four(&self) -> Option<(&'a [u8], &'a [u8], &'a [u8], &'a [u8])>
        ensures { option_map (λ p. (p.0.now, p.1.now, p.2.now, p.3.now)) result ≡ four_of self.now }
    {
        let (first, behind) = cut(b' ', self.text?)?;
        let (second, third, fourth) = Args { text: Some(behind) }.three()?;
        Some((first, second, third, fourth))
    }
}
