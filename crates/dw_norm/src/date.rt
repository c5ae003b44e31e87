//! Dates as they are written, and their normal form.

ghost use Rattle.std.specs.Prelude.{◌≡◌, ◌+◌, ◌-◌, ◌*◌, ◌<◌, ◌≤◌, ◌==◌, ◌||◌, IsTrue, length, slice_index, slice_range, string_bytes, take, drop, IfOk, IfSome, OnOk, ◌++◌, ◌∷◌};
ghost use Rattle.std.specs.Option.{option_map, is_some};
ghost use Rattle.std.specs.Str.Parse.{digits_value};
ghost use Rattle.dw_norm.specs.Digits.{decimal};
ghost use Rattle.dw_norm.specs.Calendar.{instant, moment_at};
ghost use Rattle.dw_norm.specs.Civil.{plain_day, plain_moment, IsSecond};
ghost use Rattle.dw_norm.specs.Dates.{day_len as day_len_of, fraction_len as fraction_len_of, day_part as day_part_of, time_part as time_part_of, behind_time as behind_time_of, second_part as second_part_of, zone_part as zone_part_of, minutes_of as minutes_of_text, names_minute as text_names_minute, second_of, has_time_layout as text_has_time_layout, is_time_text, is_zone_text as text_is_zone, is_date, local_instant, in_utc as instant_in_utc, moment_text as text_of_moment, norm_date};

use crate::OutOfMemory;
use crate::calendar::{earlier, later};
use crate::days::date_in;
use crate::digits::{digits_len, has_layout, is_fraction, numeral, put, put_four, put_two};
use jiff::civil::{Date, DateTime, Time};
use std::alloc::Global;

/// The normal form of a date, or none where the text is no date or names no moment of the years 1
/// to 9999 in UTC.
#[tactic(auto, unfolding(crate::specs::Dates::norm_date, crate::specs::Dates::instant_of))]
pub(crate) fn normal_date(alloc: Global, raw: &[u8]) -> Result<Option<String>, OutOfMemory>
    ensures { IfOk result (λ r. option_map string_bytes r ≡ norm_date raw.now) }
{
    let Some(local) = local_moment(raw) else {
        return Ok(None);
    };
    match in_utc(local, zone_part(raw)) {
        None => Ok(None),
        Some(moment) => Ok(Some(moment_text(alloc, moment)?)),
    }
}

/// The front of a text of at most so many bytes.
fn front(text: &[u8], len: usize) -> &[u8]
    ensures { result.now ≡ take len text.now }
{
    &text[..len.min(text.len())]
}

/// What stands behind so many bytes.
fn behind(text: &[u8], len: usize) -> &[u8]
    ensures { result.now ≡ drop len text.now }
{
    &text[len.min(text.len())..]
}

fn byte_at(text: &[u8], at: usize) -> u8
    ensures { result ≡ slice_index text.now at }
{
    if at < text.len() { text[at] } else { 0 }
}

fn day_len(raw: &[u8]) -> usize
    ensures value { result ≡ day_len_of raw.now }
    ensures few { result ≤ 10 }
{
    if byte_at(raw, 4) == b'-' { 10 } else { 8 }
}

fn day_part(raw: &[u8]) -> &[u8]
    ensures { result.now ≡ day_part_of raw.now }
{
    front(raw, day_len(raw))
}

fn time_part(raw: &[u8]) -> &[u8]
    ensures { result.now ≡ time_part_of raw.now }
{
    front(behind(raw, day_len(raw)), 9)
}

fn behind_time(raw: &[u8]) -> &[u8]
    ensures { result.now ≡ behind_time_of raw.now }
{
    behind(behind(raw, day_len(raw)), 9)
}

fn fraction_len(text: &[u8]) -> usize
    ensures value { result ≡ fraction_len_of text.now }
    ensures within { result ≤ length text.now }
{
    match text {
        [b'.', digits @ ..] => 1 + digits_len(digits),
        _ => 0,
    }
}

fn second_part(raw: &[u8]) -> &[u8]
    ensures { result.now ≡ second_part_of raw.now }
{
    let tail = behind_time(raw);
    &tail[..fraction_len(tail)]
}

fn zone_part(raw: &[u8]) -> &[u8]
    ensures { result.now ≡ zone_part_of raw.now }
{
    let tail = behind_time(raw);
    &tail[fraction_len(tail)..]
}

/// The number that the digits between two places spell, at most four.
fn number_at(text: &[u8], from: usize, to: usize) -> u32
    requires { to ≤ from + 4 }
    ensures { result ≡ digits_value 10 (slice_range text.now from to) }
{
    numeral(front(behind(text, from), to.saturating_sub(from)))
}

/// Hours and minutes in seconds.
fn minutes_of(text: &[u8]) -> u32
    requires { IsTrue (text_names_minute text.now) }
    ensures value { result ≡ minutes_of_text text.now }
    ensures bound { result ≤ 86_340 }
{
    3600 * number_at(text, 1, 3) + 60 * number_at(text, 4, 6)
}

fn names_minute(text: &[u8]) -> bool
    ensures { result ≡ text_names_minute text.now }
{
    number_at(text, 1, 3) <= 23 && number_at(text, 4, 6) <= 59
}

fn has_time_layout(text: &[u8]) -> bool
    ensures { result ≡ text_has_time_layout text.now }
{
    has_layout(b"", text) || has_layout(b"T00:00:00", text) || has_layout(b" 00:00:00", text)
}

/// The time of day, midnight where none is written, or none where the text is no time.
#[tactic(auto, unfolding(crate::specs::Dates::is_time_text))]
fn time_in(text: &[u8]) -> Option<Time>
    ensures exists { is_some result ≡ is_time_text text.now }
    ensures second { IfSome result (λ t. t.hour * 3600 + t.minute * 60 + t.second ≡ second_of text.now) }
    ensures whole { IfSome result (λ t. t.subsec_nanosecond ≡ 0) }
{
    let hour = number_at(text, 1, 3);
    let minute = number_at(text, 4, 6);
    let second = number_at(text, 7, 9);
    if !has_time_layout(text) || 23 < hour || 59 < minute || 59 < second {
        return None;
    }
    Time::new(hour as i8, minute as i8, second as i8, 0).ok()
}

#[tactic(auto, unfolding(crate::specs::Dates::is_zone_text))]
fn is_zone_text(text: &[u8]) -> bool
    ensures { result ≡ text_is_zone text.now }
{
    (has_layout(b"", text)
        || has_layout(b"Z", text)
        || has_layout(b"+00:00", text)
        || has_layout(b"-00:00", text))
        && names_minute(text)
}

/// The moment that a clock shows in the zone of the date, its fraction of a second dropped, or none
/// where the text is no date.
#[tactic(auto, unfolding(crate::specs::Dates::is_date), using(crate::proofs::ReadDates::zone_named))]
fn local_moment(raw: &[u8]) -> Option<DateTime>
    ensures exists { is_some result ≡ is_date raw.now }
    ensures second { IfSome result IsSecond }
    ensures value { IfSome result (λ t. instant (plain_moment t) ≡ local_instant raw.now) }
    ensures zone { IfSome result (λ _. IsTrue (text_names_minute (zone_part_of raw.now))) }
{
    let date = date_in(day_part(raw))?;
    let time = time_in(time_part(raw))?;
    if !is_fraction(second_part(raw)) || !is_zone_text(zone_part(raw)) {
        return None;
    }
    Some(DateTime::from_parts(date, time))
}

/// The moment in UTC where a clock in a zone shows another: the offset less where the zone is ahead.
fn in_utc(local: DateTime, zone: &[u8]) -> Option<DateTime>
    requires local { IsSecond local }
    requires zone { IsTrue (text_names_minute zone.now) }
    ensures { option_map plain_moment result ≡ moment_at (instant_in_utc zone.now (instant (plain_moment local))) }
{
    let offset = minutes_of(zone);
    if byte_at(zone, 0) == b'+' {
        earlier(local, offset)
    } else {
        later(local, offset)
    }
}

/// The year in four digits, and the month and the day in two.
fn put_day(out: &mut String, date: Date) -> Result<(), OutOfMemory>
    ensures { OnOk result (string_bytes out.new ≡ string_bytes out.old ++ decimal 4 (plain_day date).year ++ 45 ∷ decimal 2 date.month ++ 45 ∷ decimal 2 date.day) }
{
    put_four(out, u32::from(date.year().unsigned_abs()))?;
    put(out, b'-')?;
    put_two(out, date.month() as u32)?;
    put(out, b'-')?;
    put_two(out, date.day() as u32)
}

fn put_time(out: &mut String, time: Time) -> Result<(), OutOfMemory>
    ensures { OnOk result (string_bytes out.new ≡ string_bytes out.old ++ decimal 2 time.hour ++ 58 ∷ decimal 2 time.minute ++ 58 ∷ decimal 2 time.second) }
{
    put_two(out, time.hour() as u32)?;
    put(out, b':')?;
    put_two(out, time.minute() as u32)?;
    put(out, b':')?;
    put_two(out, time.second() as u32)
}

#[tactic(auto, unfolding(crate::specs::Dates::moment_text))]
fn moment_text(alloc: Global, moment: DateTime) -> Result<String, OutOfMemory>
    ensures { IfOk result (λ t. string_bytes t ≡ text_of_moment (plain_moment moment)) }
{
    let mut out = String::new(alloc);
    put_day(&mut out, moment.date())?;
    put(&mut out, b'T')?;
    put_time(&mut out, moment.time())?;
    put(&mut out, b'Z')?;
    Ok(out)
}
