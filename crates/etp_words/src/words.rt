ghost use Rattle.std.specs.Prelude.{List, ℕ, ◌≡◌, ◌≤◌, ◌<◌, ◌∷◌, [], take, drop, length, IfSome, IsTrue, ◌↔◌, MatchOption, true};
ghost use Rattle.etp_words.specs.Words.{is_blank, skip_blanks, words_of, goes_on, skip_word, behind_word, is_word, is_comment};

fn is_blank(byte: u8) -> bool
    ensures { result ≡ is_blank byte }
{
    byte == b' ' || byte == b'\t'
}

/// The line without the blanks at its front.
pub fn skip_blanks(line: &[u8]) -> &[u8]
    ensures value { result.now ≡ skip_blanks line.now }
    ensures within { length result.now ≤ length line.now }
    ensures words { words_of result.now ≡ words_of line.now }
    ensures begins { 0 < length result.now → goes_on result.now ≡ true }
{
    for (i, byte) in line.iter().enumerate() {
        if !is_blank(*byte) {
            return &line[i..];
        }
    }
    &[]
}

/// How long the word at the front is.
fn word_end(line: &[u8]) -> usize
    requires some { 0 < length line.now }
    requires begins { goes_on line.now ≡ true }
    ensures bound { result ≤ length line.now }
    ensures words { words_of line.now ≡ take result line.now ∷ words_of (drop result line.now) }
    ensures rest { drop result line.now ≡ skip_word line.now }
{
    for (i, byte) in line.iter().enumerate() {
        if is_blank(*byte) {
            return i;
        }
    }
    line.len()
}

/// The first word and what stands behind it.
pub fn next_word(line: &[u8]) -> Option<(&[u8], &[u8])>
    ensures words { MatchOption result (words_of line.now ≡ [])
        (λ p. words_of line.now ≡ p.0.now ∷ words_of p.1.now) }
    ensures rest { IfSome result (λ p. p.1.now ≡ behind_word line.now) }
    ensures within { IfSome result (λ p. length p.1.now ≤ length line.now) }
    ensures short { IfSome result (λ p. length p.0.now ≤ length line.now) }
{
    let line = skip_blanks(line);
    if line.is_empty() {
        return None;
    }
    let end = word_end(line);
    Some((&line[..end], &line[end..]))
}

/// What stands behind the first word, where that is this one.
pub fn behind<'a>(line: &'a [u8], name: &str) -> Option<&'a [u8]>
    ensures words { MatchOption result
        ((more : List (List ℕ)) → words_of line.now ≡ name.now ∷ more → ⊥)
        (λ rest. words_of line.now ≡ name.now ∷ words_of rest.now) }
    ensures rest { IfSome result (λ rest. rest.now ≡ behind_word line.now) }
    ensures within { IfSome result (λ rest. length rest.now ≤ length line.now) }
{
    match next_word(line) {
        Some((word, rest)) if is(word, name) => Some(rest),
        _ => None,
    }
}

/// Whether the word is this one.
pub fn is(word: &[u8], name: &str) -> bool
    ensures value { result ≡ is_word word.now name.now }
    ensures same { IsTrue result ↔ (word.now ≡ name.now) }
{
    word == name.as_bytes()
}

/// Whether the word begins with `#`, so that its line is a comment where it is the first one.
pub fn is_comment(word: &[u8]) -> bool
    ensures { result ≡ is_comment word.now }
{
    matches!(word, [b'#', ..])
}
