//! Words and other parts of a text.

ghost use Rattle.std.specs.Prelude.{◌≡◌, ◌==◌, ◌+◌, ◌<◌, ◌≤◌, ◌∷◌, [], length, take, drop, position, MatchOption, IfSome};
ghost use Rattle.xl_words.specs.Parts.{parts, words};

fn find_byte(bytes: &[u8], separator: u8) -> Option<usize>
    ensures { result ≡ position (λ b. b == separator) bytes.now }
{
    bytes.iter().position(|b| *b == separator)
}

/// The bytes before the first separator, and those after it, or `None` where there is no separator.
pub fn cut(bytes: &[u8], separator: u8) -> (&[u8], Option<&[u8]>)
    ensures parts { MatchOption result.1 (parts separator bytes.now ≡ result.0.now ∷ [])
        (λ rest. parts separator bytes.now ≡ result.0.now ∷ parts separator rest.now) }
    ensures two { IfSome result.1 (λ rest. 2 ≤ length (parts separator bytes.now)) }
    ensures shorter { IfSome result.1 (λ rest. length rest.now < length bytes.now) }
    ensures within { length result.0.now ≤ length bytes.now }
{
    match find_byte(bytes, separator) {
        None => (bytes, None),
        Some(at) => (&bytes[..at], Some(&bytes[at + 1..])),
    }
}

/// The bytes as a word that nothing follows, or `None` where there are none.
fn last_word(bytes: &[u8]) -> Option<(&[u8], &[u8])>
    ensures { MatchOption result (length bytes.now ≡ 0) (λ found. (0 < length bytes.now)
        × (found.0.now ≡ bytes.now) × (found.1.now ≡ [])) }
{
    if bytes.is_empty() {
        None
    } else {
        Some((bytes, &[]))
    }
}

/// The first word and what follows it, or `None` where there is no word. Words are the longest runs without a space.
pub fn next_word(bytes: &[u8]) -> Option<(&[u8], &[u8])>
    ensures words { MatchOption result (words bytes.now ≡ []) (λ found. words bytes.now
        ≡ found.0.now ∷ words found.1.now) }
    ensures shorter { IfSome result (λ found. length found.1.now < length bytes.now) }
{
    let mut rest = bytes;
    loop {
        match cut(rest, b' ') {
            (word, None) => return last_word(word),
            (word, Some(behind)) => {
                if !word.is_empty() {
                    return Some((word, behind));
                }
                rest = behind;
            }
        }
    }
}
