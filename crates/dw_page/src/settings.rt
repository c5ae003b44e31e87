ghost use Rattle.std.specs.Prelude.{◌≡◌, ◌≤◌, ◌&&◌, nat_le, is_some, IsTrue};
ghost use Rattle.std.specs.List.{list_all};
ghost use Rattle.dw_page.specs.Sizes.{are_sizes, size_at};

use dw_base::Listed;

/// How a page is walked; no answer depends on it. At least one worker and at most 16, and how many documents each open
/// shard may read in the first wave, in the second and so on, each at least 1; later waves go by the last number.
#[derive(Debug, Drop)]
pub struct Settings {
    workers: u32,
    batches: Listed<u32>,
    ghost some: { IsTrue (nat_le 1 workers) },
    ghost at_most: { IsTrue (nat_le workers 16) },
    ghost sized: { IsTrue (are_sizes batches) },
}

fn each_some(batches: &[u32]) -> bool
    ensures { result ≡ list_all (λ n. nat_le 1 n) batches.now }
{
    batches.iter().all(|size| 1 <= *size)
}

fn are_some(batches: &[u32]) -> bool
    ensures { result ≡ are_sizes batches.now }
{
    let each = each_some(batches);
    1 <= batches.len() && each
}

impl Settings {
    /// None where there is no worker or more than 16, or no batch, or one of no document.
    pub fn of(workers: u32, batches: Listed<u32>) -> Option<Settings>
        ensures { is_some result ≡ (nat_le 1 workers && nat_le workers 16 && are_sizes batches) }
    {
        if workers < 1 || workers > 16 || !are_some(batches.as_slice()) {
            return None;
        }
        Some(Settings { workers, batches })
    }

    /// How many shards are open at once, and how many threads search them.
    pub fn workers(&self) -> u32
        ensures is { result ≡ self.now.workers }
        ensures some { 1 ≤ result }
        ensures at_most { result ≤ 16 }
    {
        self.workers
    }

    /// How many documents of each open shard a wave may read, counted from 0.
    pub fn batch_at(&self, wave: usize) -> u32
        ensures is { result ≡ size_at self.now.batches wave }
        ensures some { 1 ≤ result }
    {
        let sizes = self.batches.as_slice();
        let at = wave.min(sizes.len() - 1);
        sizes[at]
    }
}
