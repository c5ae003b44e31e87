//! Texts without case and accents.

ghost use Rattle.std.specs.Prelude.{◌≡◌, string_bytes, IfOk, chars, filter, encode_utf8_all};
ghost use Rattle.std.specs.Option.{option_map};
ghost use Rattle.unicode_normalization.specs.Forms.{nfd};
ghost use Rattle.caseless.specs.Caseless.{default_case_fold};
ghost use Rattle.dw_norm.specs.NormalText.{is_no_mark as is_no_mark_char, norm_text};
ghost use Rattle.dw_norm.specs.Unchanged.{unless_empty as text_unless_empty};

use crate::OutOfMemory;
use caseless::default_case_fold_str;
use std::alloc::Global;
use unicode::properties::GeneralCategory;
use unicode_normalization::slice::extend_nfd;

/// The text decomposed canonically, without nonspacing marks, and then case folded, or none where
/// nothing is left.
#[tactic(auto, unfolding(crate::specs::NormalText::norm_text))]
pub(crate) fn normal_text(alloc: Global, raw: &str) -> Result<Option<String>, OutOfMemory>
    ensures { IfOk result (λ r. option_map string_bytes r ≡ norm_text raw.now) }
{
    Ok(unless_empty(folded(alloc, raw)?))
}

fn folded(alloc: Global, raw: &str) -> Result<String, OutOfMemory>
    ensures { IfOk result (λ t. string_bytes t ≡ encode_utf8_all (default_case_fold (filter is_no_mark_char (nfd (chars raw.now))))) }
{
    let raw_chars = chars_of(alloc, raw)?;
    let all = decomposed(alloc, raw_chars.as_slice())?;
    let kept = without_marks(alloc, all.as_slice())?;
    fold_chars(alloc, kept.as_slice())
}

pub(crate) fn chars_of(alloc: Global, raw: &str) -> Result<Vec<char>, OutOfMemory>
    ensures { IfOk result (λ cs. cs.items ≡ chars raw.now) }
{
    raw.chars().collect(alloc)
}

fn decomposed(alloc: Global, cs: &[char]) -> Result<Vec<char>, OutOfMemory>
    ensures { IfOk result (λ out. out.items ≡ nfd cs.now) }
{
    let mut out: Vec<char> = Vec::new(alloc);
    extend_nfd(&mut out, cs)?;
    Ok(out)
}

fn is_no_mark(c: char) -> bool
    ensures { result ≡ is_no_mark_char c }
{
    GeneralCategory::for_char(c) != GeneralCategory::NonspacingMark
}

fn without_marks(alloc: Global, cs: &[char]) -> Result<Vec<char>, OutOfMemory>
    ensures { IfOk result (λ kept. kept.items ≡ filter is_no_mark_char cs.now) }
{
    cs.iter().copied().filter(|c| is_no_mark(*c)).collect(alloc)
}

fn fold_chars(alloc: Global, cs: &[char]) -> Result<String, OutOfMemory>
    ensures { IfOk result (λ t. string_bytes t ≡ encode_utf8_all (default_case_fold cs.now)) }
{
    let text = text_of(alloc, cs)?;
    default_case_fold_str(alloc, text.as_str())
}

pub(crate) fn text_of(alloc: Global, cs: &[char]) -> Result<String, OutOfMemory>
    ensures { IfOk result (λ t. string_bytes t ≡ encode_utf8_all cs.now) }
{
    cs.iter().copied().collect(alloc)
}

/// A text, or none where it is empty.
fn unless_empty(text: String) -> Option<String>
    ensures { option_map string_bytes result ≡ text_unless_empty (string_bytes text) }
{
    if text.is_empty() { None } else { Some(text) }
}
