//! Moments in UTC, by the calendar of `jiff`. Its civil times reach past both ends of the years 1 to
//! 9999; its instants end before the last day of 9999, and so serve no one here.

ghost use Rattle.std.specs.Prelude.{◌≡◌, ◌+◌, ◌-◌, ◌*◌, ◌<◌, pos};
ghost use Rattle.jiff.specs.Words.{signed_nanos};
ghost use Rattle.std.specs.Option.{option_map};
ghost use Rattle.dw_norm.specs.Calendar.{instant, moment_at};
ghost use Rattle.dw_norm.specs.Civil.{plain_moment, IsSecond};

use jiff::SignedDuration;
use jiff::civil::DateTime;

fn seconds(count: u32) -> SignedDuration
    ensures { signed_nanos result ≡ pos (count * 1_000_000_000) }
{
    SignedDuration::from_secs(i64::from(count))
}

/// The moment so many seconds before another, less than a day, or none before the year 1.
pub(crate) fn earlier(from: DateTime, by: u32) -> Option<DateTime>
    requires from { IsSecond from }
    requires by { by < 86_400 }
    ensures { option_map plain_moment result ≡ moment_at (instant (plain_moment from) - by) }
{
    let Ok(moment) = from.checked_sub(seconds(by)) else {
        return None;
    };
    if moment.year() < 1 {
        None
    } else {
        Some(moment)
    }
}

/// The moment so many seconds behind another, or none behind the year 9999.
pub(crate) fn later(from: DateTime, by: u32) -> Option<DateTime>
    requires { IsSecond from }
    ensures { option_map plain_moment result ≡ moment_at (instant (plain_moment from) + by) }
{
    let Ok(moment) = from.checked_add(seconds(by)) else {
        return None;
    };
    Some(moment)
}
