ghost use Rattle.std.specs.Prelude.{◌≡◌, List, filter, map, IfOk};
ghost use Rattle.std.specs.List.{AllZip, flat_map};
ghost use Rattle.dw_derive.specs.World.{World};
ghost use Rattle.dw_page.specs.Placed.{is_open, SlotsGood, IsScanOf, Placed};
ghost use Rattle.dw_page.specs.Remains.{slot_rest};

use crate::slot::Slot;
use dw_base::OutOfMemory;
use dw_scan::{Ask, Batch};
use std::alloc::Global;

/// Gives each open slot the next output. An ended slot stays.
pub fn hand_out(
    alloc: Global,
    slots: Vec<Slot>,
    outs: Vec<Result<Batch, OutOfMemory>>,
    ask: &Ask,
) -> Result<Vec<Slot>, OutOfMemory>
    requires { AllZip (IsScanOf ask.now) (filter is_open slots.items) outs.items }
    ensures placed { IfOk result (λ news. Placed slots.items outs.items news.items) }
    ensures shards { IfOk result (λ news. map (λ s. s.resume.shard) news.items ≡ map (λ s. s.resume.shard) slots.items) }
    ensures rest { IfOk result (λ news. (w : World) → SlotsGood ask.now w slots.items → flat_map (slot_rest ask.now w) news.items ≡ flat_map (slot_rest ask.now w) slots.items) }
    ensures agree { IfOk result (λ news. (w : World) → SlotsGood ask.now w slots.items → SlotsGood ask.now w news.items) }
{
    let mut outs = outs;
    let mut news = Vec::with_capacity(alloc, slots.len())?;
    for slot in slots {
        if slot.tablet.is_some() {
            let batch = outs.remove(0)?;
            news.push(slot.accept(batch)?)?;
        } else {
            news.push(slot)?;
        }
    }
    Ok(news)
}
