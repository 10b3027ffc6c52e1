// The words of a line.
ghost use Rattle.std.specs.Prelude.{◌≡◌, ◌≢◌, ◌==◌, ◌<◌, ℕ, List, [], ◌∷◌, Some, Err, IfOk, IfSome, OnOk, OnErr, IsErrOf, length, position, option_copied};
ghost use Rattle.lfs_words.specs.Cuts.{cut, words_left};

/// Why a word isn't read.
#[derive(Clone, Copy, Debug, PartialEq, Eq)]
pub enum WordFault {
    /// No value has this spelling, or the word is missing or too much.
    Spelling,
    /// The word is spelt well, and memory refused its bytes.
    Memory,
}

// The place of the first space.
fn space_in(text: &[u8]) -> Option<usize>
    ensures place { result ≡ position (λ b. b == 32) text.now }
    ensures bound { IfSome result (λ i. i < length text.now) }
{
    text.iter().position(|b| *b == b' ')
}

// The first word, and what is behind its space.
fn first_word(text: &[u8]) -> (&[u8], Option<&[u8]>)
    ensures { cut text.now ≡ result.0.now ∷ words_left (option_copied result.1) }
{
    match space_in(text) {
        Some(i) => (&text[..i], Some(&text[i + 1..])),
        None => (text, None),
    }
}

/// The words of a line that aren't taken yet: the text up to each space and behind the last one.
#[derive(Clone, Copy)]
pub struct Words<'a> {
    pub rest: Option<&'a [u8]>,
}

impl<'a> Words<'a> {
    pub fn of(line: &'a [u8]) -> Words<'a>
        ensures { option_copied result.rest ≡ Some line.entry.now }
    {
        Words { rest: Some(line) }
    }

    pub fn next(&mut self) -> Result<&'a [u8], WordFault>
        ensures ok { IfOk result (λ word. words_left (option_copied self.old.rest)
            ≡ word.now ∷ words_left (option_copied self.new.rest)) }
        ensures err { OnErr result (words_left (option_copied self.old.rest) ≡ []) }
        ensures fault { OnErr result (IsErrOf result WordFault.Spelling) }
    {
        let Some(rest) = self.rest else {
            return Err(WordFault::Spelling);
        };
        let (word, rest) = first_word(rest);
        self.rest = rest;
        Ok(word)
    }

    /// No word is left.
    pub fn none(self) -> Result<(), WordFault>
        ensures ok { OnOk result (words_left (option_copied self.entry.rest) ≡ []) }
        ensures err { OnErr result (words_left (option_copied self.entry.rest) ≢ []) }
        ensures fault { OnErr result (IsErrOf result WordFault.Spelling) }
    {
        if self.rest.is_some() {
            return Err(WordFault::Spelling);
        }
        Ok(())
    }

    /// The only word that is left.
    pub fn one(mut self) -> Result<&'a [u8], WordFault>
        ensures ok { IfOk result (λ word. words_left (option_copied self.entry.rest)
            ≡ word.now ∷ []) }
        ensures err { OnErr result ((a : List ℕ)
            → words_left (option_copied self.entry.rest) ≢ a ∷ []) }
        ensures fault { OnErr result (IsErrOf result WordFault.Spelling) }
    {
        let word = self.next()?;
        self.none()?;
        Ok(word)
    }

    /// The only two words that are left.
    pub fn two(mut self) -> Result<(&'a [u8], &'a [u8]), WordFault>
        ensures ok { IfOk result (λ r. words_left (option_copied self.entry.rest)
            ≡ r.0.now ∷ r.1.now ∷ []) }
        ensures err { OnErr result ((a b : List ℕ)
            → words_left (option_copied self.entry.rest) ≢ a ∷ b ∷ []) }
        ensures fault { OnErr result (IsErrOf result WordFault.Spelling) }
    {
        let first = self.next()?;
        let second = self.one()?;
        Ok((first, second))
    }

    /// The only three words that are left.
    pub fn three(mut self) -> Result<(&'a [u8], &'a [u8], &'a [u8]), WordFault>
        ensures ok { IfOk result (λ r. words_left (option_copied self.entry.rest)
            ≡ r.0.now ∷ r.1.now ∷ r.2.now ∷ []) }
        ensures err { OnErr result ((a b c : List ℕ)
            → words_left (option_copied self.entry.rest) ≢ a ∷ b ∷ c ∷ []) }
        ensures fault { OnErr result (IsErrOf result WordFault.Spelling) }
    {
        let first = self.next()?;
        let second = self.next()?;
        let third = self.one()?;
        Ok((first, second, third))
    }

    /// The only four words that are left.
    pub fn four(mut self) -> Result<(&'a [u8], &'a [u8], &'a [u8], &'a [u8]), WordFault>
        ensures ok { IfOk result (λ r. words_left (option_copied self.entry.rest)
            ≡ r.0.now ∷ r.1.now ∷ r.2.now ∷ r.3.now ∷ []) }
        ensures err { OnErr result ((a b c d : List ℕ)
            → words_left (option_copied self.entry.rest) ≢ a ∷ b ∷ c ∷ d ∷ []) }
        ensures fault { OnErr result (IsErrOf result WordFault.Spelling) }
    {
        let first = self.next()?;
        let (second, third, fourth) = self.three()?;
        Ok((first, second, third, fourth))
    }
}
