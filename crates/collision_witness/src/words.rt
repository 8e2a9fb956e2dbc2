//! A line's words, one after the other.
ghost use Rattle.std.specs.Prelude.{◌≡◌, ◌≤◌, ◌∷◌, [], length, IfSome, IfNone};
ghost use Rattle.std.specs.List.{position_or_len, prefix_len};
ghost use Rattle.collision_witness.specs.Words.{without_return};
ghost use Rattle.collision_witness.specs.Words.{words_of, is_gap};
ghost use Rattle.collision_witness.specs.Words as grammar;
ghost use Rattle.collision_witness.specs.Views.{map_ok};

use pmem_base::Kind;

/// Whether a byte stands between words: a space or a tab.
fn is_space(byte: u8) -> bool
    ensures { result ≡ is_gap byte }
{
    byte == b' ' || byte == b'\t'
}

/// The number of spaces and tabs before the first word.
fn gap_length(text: &[u8]) -> usize
    ensures count { result ≡ prefix_len is_gap text.now }
    ensures within { result ≤ length text.now }
{
    for (i, byte) in text.iter().enumerate() {
        if !is_space(*byte) {
            return i;
        }
    }
    text.len()
}

/// The number of bytes before the first space or tab.
fn word_length(text: &[u8]) -> usize
    ensures count { result ≡ position_or_len is_gap text.now }
    ensures within { result ≤ length text.now }
{
    for (i, byte) in text.iter().enumerate() {
        if is_space(*byte) {
            return i;
        }
    }
    text.len()
}

/// The first word of a text, and the text behind it.
pub fn next_word(text: &[u8]) -> Option<(&[u8], &[u8])>
    ensures some { IfSome result (λ found. words_of text.now ≡ found.0.now ∷ words_of found.1.now) }
    ensures none { IfNone result (words_of text.now ≡ []) }
{
    let (_, rest) = text.split_at(gap_length(text));
    let length = word_length(rest);
    if length == 0 {
        return None;
    }
    Some(rest.split_at(length))
}

/// The line without one CR at its end.
#[tactic(auto, unfolding(crate::specs::Words::without_return))]
pub fn before_return(line: &[u8]) -> &[u8]
    ensures { result.now ≡ without_return line.now }
{
    let length = line.len();
    if length > 0 && line[length - 1] == b'\r' {
        &line[..length - 1]
    } else {
        line
    }
}

/// The word of a text that has exactly one. Errors: `Kind::Count` for any other text.
pub fn one_word(text: &[u8]) -> Result<&[u8], Kind>
    ensures { map_ok (λ word. word.now) result ≡ grammar.one_word (words_of text.now) }
{
    let Some((word, rest)) = next_word(text) else {
        return Err(Kind::Count);
    };
    match next_word(rest) {
        None => Ok(word),
        Some(_) => Err(Kind::Count),
    }
}

/// The words of a text that has exactly two. Errors: `Kind::Count` for any other text.
pub fn two_words(text: &[u8]) -> Result<(&[u8], &[u8]), Kind>
    ensures { map_ok (λ found. (found.0.now, found.1.now)) result ≡ grammar.two_words (words_of text.now) }
{
    let Some((first, rest)) = next_word(text) else {
        return Err(Kind::Count);
    };
    let Some((second, rest)) = next_word(rest) else {
        return Err(Kind::Count);
    };
    match next_word(rest) {
        None => Ok((first, second)),
        Some(_) => Err(Kind::Count),
    }
}

/// The words of a text that has exactly three. Errors: `Kind::Count` for any other text.
pub fn three_words(text: &[u8]) -> Result<(&[u8], &[u8], &[u8]), Kind>
    ensures { map_ok (λ found. (found.0.now, found.1.now, found.2.now)) result ≡ grammar.three_words (words_of text.now) }
{
    let Some((first, rest)) = next_word(text) else {
        return Err(Kind::Count);
    };
    let Some((second, rest)) = next_word(rest) else {
        return Err(Kind::Count);
    };
    let Some((third, rest)) = next_word(rest) else {
        return Err(Kind::Count);
    };
    match next_word(rest) {
        None => Ok((first, second, third)),
        Some(_) => Err(Kind::Count),
    }
}

/// The words of a text that has exactly four. Errors: `Kind::Count` for any other text.
pub fn four_words(text: &[u8]) -> Result<(&[u8], &[u8], &[u8], &[u8]), Kind>
    ensures { map_ok (λ found. (found.0.now, found.1.now, found.2.now, found.3.now)) result ≡ grammar.four_words (words_of text.now) }
{
    let Some((first, rest)) = next_word(text) else {
        return Err(Kind::Count);
    };
    let (second, third, fourth) = three_words(rest)?;
    Ok((first, second, third, fourth))
}

/// The words of a text that has exactly six. Errors: `Kind::Count` for any other text.
pub fn six_words(text: &[u8]) -> Result<(&[u8], &[u8], &[u8], &[u8], &[u8], &[u8]), Kind>
    ensures { map_ok (λ found. (found.0.now, found.1.now, found.2.now, found.3.now, found.4.now, found.5.now)) result ≡ grammar.six_words (words_of text.now) }
{
    let Some((first, rest)) = next_word(text) else {
        return Err(Kind::Count);
    };
    let Some((second, rest)) = next_word(rest) else {
        return Err(Kind::Count);
    };
    let (third, fourth, fifth, sixth) = four_words(rest)?;
    Ok((first, second, third, fourth, fifth, sixth))
}
