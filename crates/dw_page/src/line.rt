ghost use Rattle.std.specs.Prelude.{◌≡◌, IfOk};
ghost use Rattle.std.specs.Option.{option_copied};
ghost use Rattle.dw_page.specs.Marks.{is_walked, after_in, lined};

use crate::mark::MarkPlace;
use dw_base::{Listed, OutOfMemory, Text};
use dw_key::DocKey;
use dw_scan::Resume;
use std::alloc::Global;
use std::collections::VecDeque;

fn is_walked(start: Option<&MarkPlace>, shard: &Text) -> bool
    ensures { result ≡ is_walked (option_copied start.entry) shard.now }
{
    match start {
        None => true,
        Some(MarkPlace::At { shard: first, .. }) => !shard.cmp(first).is_lt(),
        Some(MarkPlace::End) => false,
    }
}

fn after_in(start: Option<&MarkPlace>, shard: &Text) -> Option<DocKey>
    ensures { result ≡ after_in (option_copied start.entry) shard.now }
{
    match start {
        None => None,
        Some(MarkPlace::At { shard: first, key }) => {
            if shard.cmp(first).is_eq() {
                Some(*key)
            } else {
                None
            }
        }
        Some(MarkPlace::End) => None,
    }
}

/// Each shard from its first event on, in order; after the place where the page before ended, the shards from that of the
/// place on, and that one after its key.
pub(crate) fn line_up(
    alloc: Global,
    shards: Listed<Text>,
    start: Option<&MarkPlace>,
) -> Result<VecDeque<Resume>, OutOfMemory>
    ensures { IfOk result (λ waiting. waiting.items ≡ lined (option_copied start.entry) shards) }
{
    let mut waiting = VecDeque::new(alloc);
    for shard in shards.into_vec() {
        if is_walked(start, &shard) {
            let after = after_in(start, &shard);
            waiting.push_back(Resume { shard, after })?;
        }
    }
    Ok(waiting)
}
