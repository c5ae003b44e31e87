//! Days as they are written.

ghost use Rattle.std.specs.Prelude.{◌≡◌, ◌≢◌, ◌↔◌, ◌≤ℤ◌, ◌<◌, pos, length, IfOk, IfSome, IfNone, IsSome, IsTrue};
ghost use Rattle.std.specs.Option.{is_some};
ghost use Rattle.dw_base.specs.Days.{is_day, names_day, is_dashed as text_is_dashed, day_digits};
ghost use Rattle.dw_norm.specs.Dates.{day_of, undashed};
ghost use Rattle.dw_norm.specs.Civil.{plain_day};

use crate::OutOfMemory;
use crate::digits::{are_digits, numeral, put_digits};
use dw_base::Text;
use jiff::civil::Date;
use std::alloc::Global;

/// The eight digits of a day of the years 0001 to 9999 in the Gregorian calendar that is written
/// `yyyyMMdd` or `yyyy-MM-dd`, or none where the text is no such day.
pub fn read_day(alloc: Global, text: &str) -> Result<Option<Text>, OutOfMemory>
    ensures { IfOk result (λ day. day ≡ day_digits text.now) }
{
    let Some(digits) = eight_bytes(text.as_bytes()) else {
        return Ok(None);
    };
    if date_of(&digits).is_none() {
        return Ok(None);
    }
    let mut day = String::new(alloc);
    put_digits(&mut day, &digits)?;
    Ok(Some(Text::from_string(day)))
}

/// The date that a text names, or none where it names no day.
pub(crate) fn date_in(text: &[u8]) -> Option<Date>
    ensures exists { is_some result ≡ is_some (day_digits text.now) }
    ensures year { IfSome result (λ d. pos 1 ≤ℤ d.year) }
    ensures day { IfSome result (λ d. plain_day d ≡ day_of (undashed text.now)) }
{
    date_of(&eight_bytes(text)?)
}

/// The date that eight digits name.
#[tactic(auto, using(crate::proofs::ReadDates::year_few, crate::proofs::ReadDates::month_few, crate::proofs::ReadDates::day_few))]
fn date_of(digits: &[u8]) -> Option<Date>
    requires { length digits.now ≡ 8 }
    ensures exists { is_some result ≡ names_day digits.now }
    ensures year { IfSome result (λ d. pos 1 ≤ℤ d.year) }
    ensures day { IfSome result (λ d. plain_day d ≡ day_of digits.now) }
{
    if !are_digits(digits) {
        return None;
    }
    let year = numeral(&digits[..4]);
    let month = numeral(&digits[4..6]);
    let day = numeral(&digits[6..]);
    date(year, month, day)
}

/// The date of a year, a month and a day, where they are one of the years 1 to 9999.
fn date(year: u32, month: u32, day: u32) -> Option<Date>
    requires year { year < 10_000 }
    requires month { month < 100 }
    requires day { day < 100 }
    ensures exists { is_some result ≡ is_day year month day }
    ensures year { IfSome result (λ d. pos 1 ≤ℤ d.year) }
    ensures day { IfSome result (λ d. plain_day d ≡ record { year = year; month = month; day = day }) }
{
    if year == 0 {
        return None;
    }
    let Ok(date) = Date::new(year as i16, month as i8, day as i8) else {
        return None;
    };
    Some(date)
}

fn is_dashed(text: &[u8]) -> bool
    ensures { result ≡ text_is_dashed text.now }
{
    text.len() == 10 && text[4] == b'-' && text[7] == b'-'
}

/// The text without its dashes, where eight bytes are left.
fn eight_bytes(text: &[u8]) -> Option<[u8; 8]>
    ensures some { IfSome result (λ bytes. bytes ≡ undashed text.now) }
    ensures none { IfNone result (length (undashed text.now) ≢ 8) }
{
    if is_dashed(text) {
        return Some([
            text[0], text[1], text[2], text[3], text[5], text[6], text[8], text[9],
        ]);
    }
    if text.len() != 8 {
        return None;
    }
    Some([
        text[0], text[1], text[2], text[3], text[4], text[5], text[6], text[7],
    ])
}
