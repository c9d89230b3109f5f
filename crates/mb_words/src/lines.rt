//! Texts cut into lines, and lines into words.

ghost use Rattle.std.specs.Prelude.{◌≡◌, ◌≢◌, ◌++◌, ℕ, List, All, MatchOption};
ghost use Rattle.mb_model.specs.chains.Script.{is_skipped};
ghost use Rattle.mb_words.specs.Words.{IsSplit, SplitsLine};

/// The text before the first occurrence of this byte, and the text after it; `None` if the text has no such byte.
pub fn split_at_byte(text: &[u8], byte: u8) -> Option<(&[u8], &[u8])>
    ensures { MatchOption result (All (λ b. b ≢ byte) text.now) (λ parts. IsSplit byte text.now parts.0.now parts.1.now) }
{
    match text.iter().position(|b| *b == byte) {
        Some(at) => Some((&text[..at], &text[at + 1..])),
        None => None,
    }
}

/// The first line of a text without its LF, and the rest of the text; the last line may lack its LF.
pub fn split_line(text: &[u8]) -> (&[u8], &[u8])
    ensures { SplitsLine text.now result.0.now result.1.now }
{
    match split_at_byte(text, b'\n') {
        Some(parts) => parts,
        None => (text, &[]),
    }
}

/// Whether a line is skipped: it is empty, or a comment.
pub fn is_skipped(line: &[u8]) -> bool
    ensures { result ≡ is_skipped line.now }
{
    match line.first() {
        Some(byte) => *byte == b'#',
        None => true,
    }
}

/// The rest of a line after the word with which it begins; `None` if the line does not begin with the word.
pub fn after_word<'a>(line: &'a [u8], word: &[u8]) -> Option<&'a [u8]>
    ensures { MatchOption result ((rest : List ℕ) → line.now ≡ word.now ++ rest → ⊥) (λ rest. line.now ≡ word.now ++ rest.now) }
{
    match line.strip_prefix(word) {
        Some(rest) => Some(rest),
        None => None,
    }
}
