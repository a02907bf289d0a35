ghost use Rattle.std.specs.Prelude.{◌≡◌, ◌==◌, ◌+◌, ◌≤◌, [], ◌∷◌, MatchOption, length, position};

/// A word of a line.
#[derive(Clone, Copy)]
pub struct Word<'a> {
    pub text: &'a [u8],
    /// How many bytes of the line stand before it.
    pub place: u32,
}

/// What is left of a line, from some place on.
#[derive(Clone, Copy)]
pub struct Rest<'a> {
    bytes: &'a [u8],
    place: u32,
    ghost within: { place + length bytes.now ≤ 1048576 },
}

fn next_space(bytes: &[u8]) -> Option<usize>
    ensures { result ≡ position (λ byte. byte == 32) bytes.now }
{
    bytes.iter().position(|byte| *byte == b' ')
}

impl<'a> Rest<'a> {
    ghost use Rattle.std.specs.Prelude.{◌≡◌, ◌+◌, ◌≤◌, [], ◌∷◌, MatchOption, length, take, drop};
    ghost use Rattle.bosh_line_words.specs.Words.{begins_word, word_of, words, words_in};

    /// The whole of a line.
    pub fn of(line: &'a [u8]) -> Rest<'a>
        requires { length line.now ≤ 1048576 }
        ensures { words_in result ≡ words 0 line.now }
    {
        Rest {
            bytes: line,
            place: 0,
        }
    }

    // The same from its first word on.
    fn without_leading_spaces(self) -> Rest<'a>
        ensures same { words_in result ≡ words_in self.entry }
        ensures begins { begins_word result.bytes.now }
    {
        let mut bytes = self.bytes;
        let mut place = self.place;
        while let [b' ', more @ ..] = bytes {
            bytes = more;
            place += 1;
        }
        Rest { bytes, place }
    }

    // What is left after so many bytes.
    fn after(self, count: usize) -> Rest<'a>
        requires { count ≤ length self.bytes.now }
        ensures bytes { result.bytes.now ≡ drop count self.entry.bytes.now }
        ensures place { result.place ≡ self.entry.place + count }
    {
        Rest {
            bytes: &self.bytes[count..],
            place: self.place + count as u32,
        }
    }

    /// The next word, and what is left after it. There is none where nothing but spaces is left.
    pub fn next(self) -> Option<(Word<'a>, Rest<'a>)>
        ensures { MatchOption result (words_in self.entry ≡ []) (λ cut. words_in self.entry ≡ word_of cut.0 ∷ words_in cut.1) }
    {
        let rest = self.without_leading_spaces();
        if rest.bytes.is_empty() {
            return None;
        }
        let end = next_space(rest.bytes).unwrap_or(rest.bytes.len());
        let word = Word {
            text: &rest.bytes[..end],
            place: rest.place,
        };
        let past = rest.after(end);
        Some((word, past))
    }
}
