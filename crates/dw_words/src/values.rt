ghost use Rattle.std.specs.Prelude.{◌≡◌, ◌≤◌, IfOk, IfSome, IsTrue, is_some, length, nat_le, option_map};
ghost use Rattle.std.specs.List.{list_all};
ghost use Rattle.dw_words.specs.Values.{are_batches as read_as_batches, batches, batches_in, form, form_named, given_number as number_given, is_batch as reads_as_batch, number, numbers, parts, place, size_of, workers};

use crate::command::{Batches, Form, Place, Workers};
use dw_base::{Listed, OutOfMemory, Text, read_numeral};
use std::alloc::Global;

/// The number that 1 to 10 decimal digits spell, where it is neither less than the least nor more than the most.
fn read_number(text: &str, least: u32, most: u32) -> Option<u32>
    ensures is { result ≡ number least most text.now }
    ensures at_most { IfSome result (λ n. n ≤ most) }
{
    if text.len() > 10 {
        return None;
    }
    let number = read_numeral(text.as_bytes(), u64::from(most))?;
    if number < u64::from(least) {
        return None;
    }
    Some(number as u32)
}

/// A number that has to be given.
pub fn given_number(value: Option<&str>, least: u32, most: u32) -> Option<u32>
    ensures is { result ≡ number_given least most (option_map (λ s. s.now) value.entry) }
    ensures at_most { IfSome result (λ n. n ≤ most) }
{
    read_number(value?, least, most)
}

/// How many threads search: 1 to 16, and 4 where nothing is given.
pub fn read_workers(value: Option<&str>) -> Option<Workers>
    ensures { result ≡ workers (option_map (λ s. s.now) value.entry) }
{
    match value {
        Some(text) => Some(Workers::of(read_number(text, 1, 16)?)),
        None => Some(Workers::of(4)),
    }
}

fn named_form(name: &str) -> Option<Form>
    ensures { result ≡ form_named name.now }
{
    if name == "json" {
        return Some(Form::Json);
    }
    if name == "csv" {
        return Some(Form::Csv);
    }
    None
}

/// `json` or `csv`, which has to be given.
pub fn read_form(value: Option<&str>) -> Option<Form>
    ensures { result ≡ form (option_map (λ s. s.now) value.entry) }
{
    named_form(value?)
}

/// Whether the values for `store` and `journal` name one place: at most one of them is given.
pub fn is_place(store: Option<&str>, journal: Option<&str>) -> bool
    ensures { result ≡ is_some (place (option_map (λ s. s.now) store.entry) (option_map (λ s. s.now) journal.entry)) }
{
    store.is_none() || journal.is_none()
}

/// The place that the values for `store` and `journal` name.
pub fn read_place(
    alloc: Global,
    store: Option<&str>,
    journal: Option<&str>,
) -> Result<Option<Place>, OutOfMemory>
    ensures { IfOk result (λ p. p ≡ place (option_map (λ s. s.now) store.entry) (option_map (λ s. s.now) journal.entry)) }
{
    match (store, journal) {
        (None, None) => Ok(Some(Place::Memory)),
        (Some(path), None) => Ok(Some(Place::Store(Text::of(alloc, path)?))),
        (None, Some(path)) => Ok(Some(Place::Journal(Text::of(alloc, path)?))),
        (Some(_), Some(_)) => Ok(None),
    }
}

fn read_batch(part: &str) -> Option<u32>
    ensures is { result ≡ number 1 1000000 part.now }
{
    read_number(part, 1, 1_000_000)
}

fn is_batch(part: &str) -> bool
    ensures { result ≡ reads_as_batch part.now }
{
    read_batch(part).is_some()
}

fn each_is_batch(text: &str) -> bool
    ensures { result ≡ list_all reads_as_batch (parts text.now) }
{
    text.split(',').all(|part| is_batch(part))
}

fn are_few(text: &str) -> bool
    ensures { result ≡ nat_le (length (parts text.now)) 16 }
{
    text.split(',').count() <= 16
}

/// Whether a text is 1 to 16 numbers of 1 to 1,000,000, parted by commas.
fn are_numbers(text: &str) -> bool
    ensures { result ≡ read_as_batches text.now }
{
    let each = each_is_batch(text);
    are_few(text) && each
}

/// The value for `batches`, or what stands for none.
fn batches_text(value: Option<&str>) -> &str
    ensures { result.now ≡ batches_in (option_map (λ s. s.now) value.entry) }
{
    value.unwrap_or("1000")
}

/// Whether the value for `batches` is 1 to 16 numbers of 1 to 1,000,000, or not given.
pub fn are_batches(value: Option<&str>) -> bool
    ensures { result ≡ is_some (batches (option_map (λ s. s.now) value.entry)) }
{
    are_numbers(batches_text(value))
}

/// The number that a part spells, or 0.
fn batch_size(part: &str) -> u32
    ensures { result ≡ size_of part.now }
{
    read_batch(part).unwrap_or(0)
}

/// The numbers of a text of them.
fn read_numbers(alloc: Global, text: &str) -> Result<Vec<u32>, OutOfMemory>
    requires { IsTrue (read_as_batches text.now) }
    ensures { IfOk result (λ v. v.items ≡ numbers text.now) }
{
    text.split(',').map(|part| batch_size(part)).collect(alloc)
}

/// How many documents a shard may read wave by wave, 1,000 where nothing is given.
pub fn read_batches(alloc: Global, value: Option<&str>) -> Result<Option<Batches>, OutOfMemory>
    ensures { IfOk result (λ b. b ≡ batches (option_map (λ s. s.now) value.entry)) }
{
    let text = batches_text(value);
    if !are_numbers(text) {
        return Ok(None);
    }
    let sizes = read_numbers(alloc, text)?;
    Ok(Some(Batches::of(Listed::from_vec(sizes))))
}
