//! Names, and texts that list names.
ghost use Rattle.std.specs.Prelude.{◌≡◌, map, if◌then◌else◌, Some, None, Ok, Err, IfOk, Result, List, ℕ};
ghost use Rattle.std.specs.List.{list_all, slice_split};
ghost use Rattle.pm_schema.specs.MarkTexts.{is_blank as blank, words as words_of};
ghost use Rattle.pm_expr.specs.Tokens.{is_word as word_byte};
ghost use Rattle.pm_schemajson.specs.Words.{is_name as name_of, names_in};

use pm_list::Listed;
use pm_value::Text;
use std::alloc::{AllocError, Global};

fn is_blank(byte: u8) -> bool
    ensures { result ≡ blank byte }
{
    byte == b' ' || byte == b'\t' || byte == b'\n' || byte == b'\r'
}

fn is_word(byte: u8) -> bool
    ensures { result ≡ word_byte byte }
{
    (48 <= byte && byte <= 57)
        || ((65 <= byte && byte <= 90) || ((97 <= byte && byte <= 122) || byte == b'_'))
}

/// Whether the bytes are a well-formed name.
pub(crate) fn is_name(word: &[u8]) -> bool
    ensures { result ≡ name_of word.now }
{
    1 <= word.len() && word.len() <= 64 && all_word(word) && word != b"_".as_slice()
}

fn all_word(word: &[u8]) -> bool
    ensures { result ≡ list_all word_byte word.now }
{
    word.iter().all(|b| is_word(*b))
}

/// The pieces of the text between blanks.
fn pieces<'a>(alloc: Global, text: &'a [u8]) -> Result<Vec<&'a [u8]>, AllocError>
    ensures { IfOk result (λ v. map (λ x. x.now) v.items ≡ slice_split blank text.now) }
{
    text.split(|b| is_blank(*b)).collect(alloc)
}

/// The names in the text: the pieces that are not empty.
fn words<'a>(alloc: Global, text: &'a [u8]) -> Result<Vec<&'a [u8]>, AllocError>
    ensures { IfOk result (λ v. map (λ x. x.now) v.items ≡ words_of text.now) }
{
    let mut words = Vec::new(alloc);
    let pieces = pieces(alloc, text)?;
    for piece in &pieces {
        if piece.len() != 0 {
            words.push(*piece)?;
        }
    }
    Ok(words)
}

/// The bytes as a text, if they are a well-formed name.
fn name_text(alloc: Global, word: &[u8]) -> Result<Option<Text>, AllocError>
    ensures { IfOk result (λ t. t ≡ (if name_of word.now then Some word.now else None)) }
{
    if !is_name(word) {
        return Ok(None);
    }
    match str::from_utf8(word) {
        Ok(text) => Ok(Some(Text::from_str(alloc, text)?)),
        Err(_) => unreachable!(),
    }
}

/// The names that the text lists with blanks between, if each is well-formed.
pub(crate) fn names(alloc: Global, text: &str) -> Result<Option<Listed<Text>>, AllocError>
    ensures { IfOk result (λ l. l ≡ names_in text.now) }
{
    let words = words(alloc, text.as_bytes())?;
    names_of(alloc, words.as_slice())
}

/// The words as texts, if each is a well-formed name.
fn names_of(alloc: Global, words: &[&[u8]]) -> Result<Option<Listed<Text>>, AllocError>
    ensures { let all = map (λ x. x.now) words.now in IfOk result (λ l. l ≡ (if list_all name_of all then Some all else None)) }
{
    let mut names = Listed::new(alloc);
    for word in words {
        match name_text(alloc, *word)? {
            Some(name) => names.push(name)?,
            None => return Ok(None),
        }
    }
    Ok(Some(names))
}
