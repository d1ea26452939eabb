//! The texts that name marks.
ghost use Rattle.std.specs.Prelude.{◌≡◌, ◌<◌, ℕ, ◌||◌, false, length, map, slice_index_or, replicate, IfOk};
ghost use Rattle.std.specs.List.{list_any, slice_split};
ghost use Rattle.pm_schema.specs.Types.{no_mark};
ghost use Rattle.pm_schema.specs.MarkTexts.{is_blank as blank, words as words_of, is_type as type_of, in_group as group_of, means, is_all as all_of, is_known as known_of, all_known as all_known_of, named_row};

use crate::spec::MarkSpec;
use pm_list::Listed;
use std::alloc::{AllocError, Global};

fn is_blank(byte: u8) -> bool
    ensures { result ≡ blank byte }
{
    matches!(byte, b' ' | b'\t' | b'\n' | b'\r')
}

/// The pieces of the text between blanks.
fn pieces<'a>(alloc: Global, text: &'a [u8]) -> Result<Vec<&'a [u8]>, AllocError>
    ensures { IfOk result (λ v. map (λ x. x.now) v.items ≡ slice_split blank text.now) }
{
    text.split(|b| is_blank(*b)).collect(alloc)
}

/// The names in the text: the pieces that are not empty.
fn words<'a>(alloc: Global, text: &'a [u8]) -> Result<Vec<&'a [u8]>, AllocError>
    ensures { IfOk result (λ v. map (λ x. x.now) v.items ≡ words_of text.now) }
{
    let mut words = Vec::new(alloc);
    let pieces = pieces(alloc, text)?;
    for piece in &pieces {
        if piece.len() != 0 {
            words.push(*piece)?;
        }
    }
    Ok(words)
}

/// Whether a mark type has the name.
fn is_type(marks: &[MarkSpec], word: &[u8]) -> bool
    ensures { result ≡ type_of marks.now word.now }
{
    marks.iter().any(|m| word == m.name.as_str().as_bytes())
}

/// Whether the mark type is in the group.
fn in_group(word: &[u8], mark: &MarkSpec) -> bool
    ensures { result ≡ group_of word.now mark.now }
{
    mark.groups
        .as_slice()
        .iter()
        .any(|g| word == g.as_str().as_bytes())
}

/// Whether the name is that of a mark type or of a group of mark types.
fn is_known(marks: &[MarkSpec], word: &[u8]) -> bool
    ensures { result ≡ known_of marks.now word.now }
{
    is_type(marks, word) || is_group(marks, word)
}

/// Whether a mark type is in the group.
fn is_group(marks: &[MarkSpec], word: &[u8]) -> bool
    ensures { result ≡ list_any (group_of word.now) marks.now }
{
    marks.iter().any(|m| in_group(word, m))
}

/// Whether the text is `_` alone.
fn is_all(text: &str) -> bool
    ensures { result ≡ all_of text.now }
{
    "_" == text
}

/// Whether each name in the text is known.
pub fn all_known(alloc: Global, marks: &[MarkSpec], text: &str) -> Result<bool, AllocError>
    ensures { IfOk result (λ b. b ≡ all_known_of marks.now text.now) }
{
    if is_all(text) {
        return Ok(true);
    }
    let words = words(alloc, text.as_bytes())?;
    for word in &words {
        if !is_known(marks, *word) {
            return Ok(false);
        }
    }
    Ok(true)
}

/// Marks in the row the types that the name means.
fn mark_word(row: &mut [bool], marks: &[MarkSpec], word: &[u8])
    requires { length row.old ≡ length marks.now }
    ensures { (i : ℕ) → i < length marks.now → slice_index_or row.new i false ≡ (slice_index_or row.old i false || means marks.now word.now (slice_index_or marks.now i no_mark)) }
{
    let typed = is_type(marks, word);
    for i in 0..marks.len() {
        let mark = &marks[i];
        let meant = if typed {
            word == mark.name.as_str().as_bytes()
        } else {
            in_group(word, mark)
        };
        if meant {
            row[i] = true;
        }
    }
}

/// So many places with one value.
fn filled(alloc: Global, value: bool, count: usize) -> Result<Vec<bool>, AllocError>
    ensures { IfOk result (λ v. v.items ≡ replicate count value) }
{
    let row = vec![in alloc; value; count]?;
    Ok(row)
}

/// For each mark type whether the text names it.
pub fn named(alloc: Global, marks: &[MarkSpec], text: &str) -> Result<Listed<bool>, AllocError>
    ensures { IfOk result (λ l. l ≡ named_row marks.now text.now) }
{
    if is_all(text) {
        let row = filled(alloc, true, marks.len())?;
        return Ok(Listed::from_vec(row));
    }
    let words = words(alloc, text.as_bytes())?;
    let mut row = filled(alloc, false, marks.len())?;
    for word in &words {
        mark_word(row.as_mut_slice(), marks, *word);
    }
    Ok(Listed::from_vec(row))
}
