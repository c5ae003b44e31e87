ghost use Rattle.std.specs.Prelude.{◌≡◌, ◌≤◌, true, IfOk};
ghost use Rattle.std.specs.Option.{option_copied};
ghost use Rattle.dw_page.specs.Marks.{place_before, place_after, skip_to, is_end};

use dw_base::{OutOfMemory, Text};
use dw_event::Shown;
use dw_key::DocKey;

/// Where a page ended.
#[derive(Debug, Drop)]
pub enum MarkPlace {
    /// At the last event that it showed, behind which more stand.
    At { shard: Text, key: DocKey },
    /// With the answer.
    End,
}

/// A page that was shown, counted from 1, and where it ended.
#[derive(Debug, Drop)]
pub struct Mark {
    pub page: u32,
    pub place: MarkPlace,
}

/// Where the page before ended, if the mark is for that page.
pub(crate) fn place_before<'m>(mark: Option<&'m Mark>, page: u32) -> Option<&'m MarkPlace>
    requires { 1 ≤ page }
    ensures { option_copied result ≡ place_before (option_copied mark.entry) page }
{
    match mark {
        None => None,
        Some(mark) => {
            if mark.page == page - 1 {
                Some(&mark.place)
            } else {
                None
            }
        }
    }
}

/// The answer ended with the page before.
pub(crate) fn is_end(start: Option<&MarkPlace>) -> bool
    ensures { result ≡ is_end (option_copied start.entry) }
{
    match start {
        None => false,
        Some(MarkPlace::At { .. }) => false,
        Some(MarkPlace::End) => true,
    }
}

/// How many events a page passes over.
pub(crate) fn skip_to(start: Option<&MarkPlace>, page: u32, size: u32) -> u64
    requires { 1 ≤ page }
    ensures { result ≡ skip_to (option_copied start.entry) page size }
{
    match start {
        None => (page - 1) as u64 * size as u64,
        Some(_) => 0,
    }
}

fn last_place(shown: &[Shown]) -> Result<MarkPlace, OutOfMemory>
    ensures { IfOk result (λ place. place ≡ place_after true shown.now) }
{
    match shown.last() {
        None => Ok(MarkPlace::End),
        Some(last) => Ok(MarkPlace::At {
            shard: last.shard.copy()?,
            key: last.key,
        }),
    }
}

/// The mark of a page that shows these events, with or without more behind them.
pub(crate) fn mark_after(page: u32, shown: &[Shown], more: bool) -> Result<Mark, OutOfMemory>
    ensures page { IfOk result (λ m. m.page ≡ page) }
    ensures place { IfOk result (λ m. m.place ≡ place_after more shown.now) }
{
    let place = if more {
        last_place(shown)?
    } else {
        MarkPlace::End
    };
    Ok(Mark { page, place })
}
