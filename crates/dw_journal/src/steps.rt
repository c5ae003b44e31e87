ghost use Rattle.std.specs.Prelude.{◌≡◌, ◌⊎◌, ◌<◌, ◌≤◌, ◌+◌, ◌^◌, ◌++◌, [], ◌∷◌, ℕ, List, length, true, false, Some, None, is_some, OnOk, OnErr};
ghost use Rattle.dw_outside.specs.Faults.{Rose};
ghost use Rattle.dw_outside.specs.Disks.{Now, Since, after, wrote, synced};
ghost use Rattle.std.specs.declared.option.Option.{Option};
ghost use Rattle.dw_journal.specs.Frames.{open_frames, HoldsFrames};
ghost use Rattle.dw_journal.specs.Fixed.{IsFixed, IsFixedBut, IsAtRest, Leaves, HoldsOrMore, StandsOn, CouldHold, GateStands, told_length};

use dw_outside::{Disk, Failed};

/// Writes a frame behind the gate, with the closed gate after it, and puts it on the disk.
pub fn write_frame<D: Disk>(disk: &mut D, gate: u64, frame: &[u8]) -> Result<(), Failed>
    requires small { gate + 1 < 2 ^ 64 }
    requires there { gate < told_length (D.model disk.old) }
    ensures written { OnOk result (D.model disk.new ≡ after synced (after (wrote (gate + 1) frame.now) (D.model disk.old))) }
    ensures bound { OnOk result (gate + 1 + length frame.now < 2 ^ 63) }

    // What stands up to the gate, and the gate, stands at each moment.
    ensures moments { (front : List ℕ) → length front ≤ gate + 1 → Now (IsFixed front) (D.model disk.old) → Since (IsFixed front) (D.model disk.old) (D.model disk.new) }
    ensures longer { told_length (D.model disk.old) ≤ told_length (D.model disk.new) }
    ensures end { OnOk result (gate + 1 + length frame.now ≤ told_length (D.model disk.new)) }
    ensures told { is_some (D.model disk.new) ≡ is_some (D.model disk.old) }
    ensures counted { D.faults disk.old ≤ D.faults disk.new }
    ensures failed { OnErr result (Rose (D.faults disk.old) (D.faults disk.new)) }
{
    disk.write_at(gate + 1, frame)?;
    disk.sync()?;
    Ok(())
}

/// Opens the gate, and puts that on the disk.
pub fn open_gate<D: Disk>(disk: &mut D, gate: u64) -> Result<(), Failed>
    requires { gate < told_length (D.model disk.old) }
    ensures written { OnOk result (D.model disk.new ≡ after synced (after (wrote gate (1 ∷ [])) (D.model disk.old))) }

    // All but the gate stands at each moment.
    ensures moments { (front rest : List ℕ) → length front ≡ gate → Now (IsFixedBut front rest) (D.model disk.old) → Since (IsFixedBut front rest) (D.model disk.old) (D.model disk.new) }
    ensures longer { told_length (D.model disk.old) ≤ told_length (D.model disk.new) }
    ensures told { is_some (D.model disk.new) ≡ is_some (D.model disk.old) }
    ensures counted { D.faults disk.old ≤ D.faults disk.new }
    ensures failed { OnErr result (Rose (D.faults disk.old) (D.faults disk.new)) }
{
    put_gate(disk, gate, 1)
}

/// Closes a gate of which it is in doubt whether it is open, and puts that on the disk.
pub fn close_gate<D: Disk>(disk: &mut D, gate: u64) -> Result<(), Failed>
    requires { gate < told_length (D.model disk.old) }
    ensures closed { (frames : List (List ℕ)) (rest : List ℕ) → gate ≡ length (open_frames frames) → Now (IsFixedBut (open_frames frames) rest) (D.model disk.old) → OnOk result (Now (IsAtRest frames) (D.model disk.new)) }
    ensures moments { (front rest : List ℕ) → length front ≡ gate → Now (IsFixedBut front rest) (D.model disk.old) → Since (IsFixedBut front rest) (D.model disk.old) (D.model disk.new) }
    ensures longer { told_length (D.model disk.old) ≤ told_length (D.model disk.new) }
    ensures told { is_some (D.model disk.new) ≡ is_some (D.model disk.old) }
    ensures counted { D.faults disk.old ≤ D.faults disk.new }
    ensures failed { OnErr result (Rose (D.faults disk.old) (D.faults disk.new)) }
{
    put_gate(disk, gate, 0)
}

fn put_gate<D: Disk>(disk: &mut D, gate: u64, value: u8) -> Result<(), Failed>
    requires { gate < told_length (D.model disk.old) }
    ensures written { OnOk result (D.model disk.new ≡ after synced (after (wrote gate (value ∷ [])) (D.model disk.old))) }
    ensures moments { (front rest : List ℕ) → length front ≡ gate → Now (IsFixedBut front rest) (D.model disk.old) → Since (IsFixedBut front rest) (D.model disk.old) (D.model disk.new) }
    ensures longer { told_length (D.model disk.old) ≤ told_length (D.model disk.new) }
    ensures told { is_some (D.model disk.new) ≡ is_some (D.model disk.old) }
    ensures counted { D.faults disk.old ≤ D.faults disk.new }
    ensures failed { OnErr result (Rose (D.faults disk.old) (D.faults disk.new)) }
{
    disk.write_at(gate, &[value])?;
    disk.sync()?;
    Ok(())
}

/// Closes the gate where it is in doubt.
fn settle<D: Disk>(disk: &mut D, gate: u64, in_doubt: &mut bool) -> Result<(), Failed>
    requires { gate < told_length (D.model disk.old) }
    ensures settled { (frames : List (List ℕ)) (doubt : Option (List ℕ)) → GateStands (D.model disk.old) frames doubt gate in_doubt.old → OnOk result (GateStands (D.model disk.new) frames None gate in_doubt.new) }
    ensures unsettled { (frames : List (List ℕ)) (doubt : Option (List ℕ)) → GateStands (D.model disk.old) frames doubt gate in_doubt.old → OnErr result (GateStands (D.model disk.new) frames doubt gate in_doubt.new) }
    ensures moments { (frames : List (List ℕ)) (doubt : Option (List ℕ)) → GateStands (D.model disk.old) frames doubt gate in_doubt.old → Since (Leaves (CouldHold frames doubt)) (D.model disk.old) (D.model disk.new) }
    ensures sure { OnOk result (in_doubt.new ≡ false) }
    ensures longer { told_length (D.model disk.old) ≤ told_length (D.model disk.new) }
    ensures told { is_some (D.model disk.new) ≡ is_some (D.model disk.old) }
    ensures counted { D.faults disk.old ≤ D.faults disk.new }
    ensures failed { OnErr result (Rose (D.faults disk.old) (D.faults disk.new)) }
{
    if *in_doubt {
        close_gate(disk, gate)?;
        *in_doubt = false;
    }
    Ok(())
}

/// Adds a frame behind the closed gate, and opens that gate.
fn add<D: Disk>(
    disk: &mut D,
    gate: &mut u64,
    in_doubt: &mut bool,
    frame: &[u8],
) -> Result<(), Failed>
    requires small { gate.old + 1 < 2 ^ 64 }
    requires there { gate.old < told_length (D.model disk.old) }
    requires some { 0 < length frame.now }
    ensures added { (frames : List (List ℕ)) (body : List ℕ) → frame.now ≡ body ++ 0 ∷ [] → GateStands (D.model disk.old) frames None gate.old in_doubt.old → OnOk result (GateStands (D.model disk.new) (frames ++ body ∷ []) None gate.new in_doubt.new) }
    ensures refused { (frames : List (List ℕ)) (body : List ℕ) → frame.now ≡ body ++ 0 ∷ [] → GateStands (D.model disk.old) frames None gate.old in_doubt.old → OnErr result (GateStands (D.model disk.new) frames None gate.new in_doubt.new ⊎ GateStands (D.model disk.new) frames (Some body) gate.new in_doubt.new) }
    ensures moments { (frames : List (List ℕ)) (body : List ℕ) → frame.now ≡ body ++ 0 ∷ [] → GateStands (D.model disk.old) frames None gate.old in_doubt.old → Since (Leaves (HoldsOrMore frames body)) (D.model disk.old) (D.model disk.new) }
    ensures small { gate.new + 1 < 2 ^ 64 }
    ensures there { gate.new < told_length (D.model disk.new) }
    ensures told { is_some (D.model disk.new) ≡ is_some (D.model disk.old) }
    ensures counted { D.faults disk.old ≤ D.faults disk.new }
    ensures failed { OnErr result (Rose (D.faults disk.old) (D.faults disk.new)) }
{
    write_frame(disk, *gate, frame)?;
    *in_doubt = true;
    open_gate(disk, *gate)?;
    *in_doubt = false;
    *gate += frame.len() as u64;
    Ok(())
}

/// Appends a frame, which ends in the closed gate behind it.
pub(crate) fn append<D: Disk>(
    disk: &mut D,
    gate: &mut u64,
    in_doubt: &mut bool,
    frame: &[u8],
) -> Result<(), Failed>
    requires small { gate.old + 1 < 2 ^ 64 }
    requires there { gate.old < told_length (D.model disk.old) }
    requires some { 0 < length frame.now }
    ensures added { (frames : List (List ℕ)) (doubt : Option (List ℕ)) (body : List ℕ) → frame.now ≡ body ++ 0 ∷ [] → GateStands (D.model disk.old) frames doubt gate.old in_doubt.old → OnOk result (GateStands (D.model disk.new) (frames ++ body ∷ []) None gate.new in_doubt.new) }
    ensures refused { (frames : List (List ℕ)) (doubt : Option (List ℕ)) (body : List ℕ) → frame.now ≡ body ++ 0 ∷ [] → GateStands (D.model disk.old) frames doubt gate.old in_doubt.old → OnErr result (GateStands (D.model disk.new) frames doubt gate.new in_doubt.new ⊎ (GateStands (D.model disk.new) frames None gate.new in_doubt.new ⊎ GateStands (D.model disk.new) frames (Some body) gate.new in_doubt.new)) }
    ensures moments { (frames : List (List ℕ)) (doubt : Option (List ℕ)) (body : List ℕ) → frame.now ≡ body ++ 0 ∷ [] → GateStands (D.model disk.old) frames doubt gate.old in_doubt.old → Since (Leaves (λ c. CouldHold frames doubt c ⊎ HoldsFrames (frames ++ body ∷ []) c)) (D.model disk.old) (D.model disk.new) }
    ensures small { gate.new + 1 < 2 ^ 64 }
    ensures there { gate.new < told_length (D.model disk.new) }
    ensures told { is_some (D.model disk.new) ≡ is_some (D.model disk.old) }
    ensures counted { D.faults disk.old ≤ D.faults disk.new }
    ensures failed { OnErr result (Rose (D.faults disk.old) (D.faults disk.new)) }
{
    settle(disk, *gate, in_doubt)?;
    add(disk, gate, in_doubt, frame)
}
