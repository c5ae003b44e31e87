ghost use Rattle.std.specs.Prelude.{◌≡◌, ◌<◌, ◌≤◌, ◌+◌, ◌-◌, ◌^◌, ℕ, length, take, drop, min, IfOk, OnOk, OnErr};
ghost use Rattle.std.specs.Io.{ReadsAtMost};
ghost use Rattle.std.specs.declared.option.Option.{Option};
ghost use Rattle.dw_outside.specs.Faults.{Rose};
ghost use Rattle.dw_outside.specs.Disks.{DiskModel, MayLeave, Now, after, wrote, synced, IsTorn};

use crate::traits::Failed;

/// A file of bytes that a stop of the machine may tear. What was written since the last good sync may be
/// any bytes after a stop; all else stands.
pub trait Disk {
    /// What the disk holds and held at each moment, where it tells that and keeps to it. The contents, what
    /// a stop now or at some moment since may leave, and whether the disk is honest are read off it.
    ghost model: { Self → Option DiskModel };

    /// How many faults there were; the count stands still at 2^64 - 1.
    ghost faults: { Self → ℕ };

    /// How many bytes there are.
    fn length(&mut self) -> Result<u64, Failed>
        ensures length { IfOk result (λ n. Now (λ s. n ≡ length s.seen) (model self.old)) }
        ensures same { model self.new ≡ model self.old }
        ensures counted { faults self.old ≤ faults self.new }
        ensures failed { OnErr result (Rose (faults self.old) (faults self.new)) };

    /// Gives the bytes from a place, as many as fit or are left.
    fn read(&mut self, at: u64, buf: &mut [u8]) -> Result<usize, Failed>
        ensures bound { ReadsAtMost result buf.new }
        ensures count { IfOk result (λ n. Now (λ s. n ≡ min (length buf.old) (length s.seen - at)) (model self.old)) }
        ensures bytes { IfOk result (λ n. Now (λ s. take n buf.new ≡ take n (drop at s.seen)) (model self.old)) }
        ensures same { model self.new ≡ model self.old }
        ensures counted { faults self.old ≤ faults self.new }
        ensures failed { OnErr result (Rose (faults self.old) (faults self.new)) };

    /// Writes over what is there, and past the end. One that would end past place 2^63 - 1 fails.
    fn write_at(&mut self, at: u64, bytes: &[u8]) -> Result<(), Failed>
        requires { Now (λ s. at ≤ length s.seen) (model self.old) }
        ensures written { OnOk result (model self.new ≡ after (wrote at bytes.now) (model self.old)) }
        ensures bound { OnOk result (at + length bytes.now < 2 ^ 63) }
        ensures torn { OnErr result (IsTorn at (length bytes.now) (model self.old) (model self.new)) }
        ensures counted { faults self.old ≤ faults self.new }
        ensures failed { OnErr result (Rose (faults self.old) (faults self.new)) };

    /// After it, a stop leaves what a read gives.
    fn sync(&mut self) -> Result<(), Failed>
        ensures synced { OnOk result (model self.new ≡ after synced (model self.old)) }
        ensures unsynced { OnErr result (model self.new ≡ model self.old) }
        ensures counted { faults self.old ≤ faults self.new }
        ensures failed { OnErr result (Rose (faults self.old) (faults self.new)) };

    /// The contents are among what a stop now may leave.
    ghost stands: { (disk : Self) → Now (λ s. MayLeave s s.seen) (model disk) };
}
