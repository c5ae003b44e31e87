ghost use Rattle.std.specs.Cmp.Lexicographic.{pointwise};
ghost use Rattle.std.specs.Cmp.Rules.{comparing};
ghost use Rattle.std.proofs.Common.{rules};
ghost use Rattle.std.specs.Prelude.{nat_eq, ◌≡◌, [], ◌∷◌, ◌++◌, IfOk, OnErr, OnOk, chars, encode_utf8_all, string_bytes};

use crate::OutOfMemory;
use std::alloc::Global;
use std::marker::Model;

/// A text, seen as the list of its characters, each by its code point.
#[derive(Debug, Drop)]
pub struct Word {
    inner: String,
}

impl Model for Word {
    ghost use Rattle.std.specs.Prelude.{List, ℕ, string_bytes, chars};

    ghost Value = { List ℕ };

    ghost view = { λ w. chars (string_bytes w.inner) };
}

impl Word {
    /// A copy of the text.
    pub fn of(alloc: Global, text: &str) -> Result<Word, OutOfMemory>
        ensures { IfOk result (λ w. w ≡ chars text.now) }
    {
        let inner = String::from_str(alloc, text)?;
        Ok(Word { inner })
    }

    /// Its text, in UTF-8.
    pub fn as_str(&self) -> &str
        ensures characters { chars result.now ≡ self.now }
        ensures bytes { result.now ≡ encode_utf8_all self.now }
    {
        self.inner.as_str()
    }

    /// An equal word.
    pub fn copy(&self) -> Result<Word, OutOfMemory>
        ensures { IfOk result (λ w. w ≡ self.now) }
    {
        let inner = self.inner.clone()?;
        Ok(Word { inner })
    }

    /// The empty word, which takes no memory.
    pub fn new(alloc: Global) -> Word
        ensures { result ≡ [] }
    {
        Word {
            inner: String::new(alloc),
        }
    }

    /// Adds a character at the end.
    pub fn push(&mut self, character: char) -> Result<(), OutOfMemory>
        ensures ok { OnOk result (self.new ≡ self.old ++ character ∷ []) }
        ensures err { OnErr result (self.new ≡ self.old) }
    {
        self.inner.push(character)
    }

    /// The text itself.
    pub fn into_text(self) -> String
        ensures { chars (string_bytes result) ≡ self }
    {
        let Word { inner } = self;
        inner
    }

    /// The word of these characters.
    pub fn from_chars(alloc: Global, characters: &[char]) -> Result<Word, OutOfMemory>
        ensures { IfOk result (λ w. w ≡ characters.now) }
    {
        let mut word = Word::new(alloc);
        for character in characters {
            word.push(*character)?;
        }
        Ok(word)
    }
}

impl PartialEq for Word {
    ghost eq = { pointwise nat_eq };

    ghost laws = { Prim.search (comparing, rules) };

    fn eq(&self, other: &Word) -> bool {
        self.inner == other.inner
    }
}

impl Eq for Word {
    ghost laws = { Prim.search (comparing, rules) };
}

/// The characters of a text.
pub fn characters(alloc: Global, text: &str) -> Result<Vec<char>, OutOfMemory>
    ensures { IfOk result (λ v. v.items ≡ chars text.now) }
{
    text.chars().collect(alloc)
}
