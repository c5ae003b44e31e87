ghost use Rattle.std.specs.Prelude.{◌≡◌, ◌<◌, ◌≤◌, length, take, IsTrue, IfOk, IfErr, OnErr};
ghost use Rattle.std.specs.Io.{ReadsAtMost, WritesAtMost};
ghost use Rattle.std.specs.Io.KnownBytes.{Appends, Keeps, ReadConsumes};
ghost use Rattle.dw_outside.specs.Faults.{Rose};

use crate::traits::Failed;
use std::io::{Error, ErrorKind, Read, Write};
use std::net::OpenListener;

/// Reads once, and again after an interruption, which counts as a fault too.
pub(crate) fn read_again<R: Read>(
    reader: &mut R,
    faults: &mut u64,
    buf: &mut [u8],
) -> Result<usize, Failed>
    ensures bound { ReadsAtMost result buf.new }
    ensures bytes { ReadConsumes (R.remaining reader.old) (R.remaining reader.new) result buf.new }
    ensures counted { faults.old ≤ faults.new }
    ensures failed { OnErr result (Rose faults.old faults.new) }
{
    for _turn in 0..u64::MAX {
        match reader.read(buf) {
            Ok(count) => return Ok(count),
            Err(error) => {
                *faults = faults.saturating_add(1);
                if error.kind() != ErrorKind::Interrupted {
                    return Err(Failed);
                }
            }
        }
    }
    Err(Failed)
}

/// Writes once, and again after an interruption, which counts as a fault too. What it takes has
/// reached the writer's own end, as by a flush. Nothing taken of a piece that is not empty is a fault.
pub(crate) fn write_again<W: Write>(
    writer: &mut W,
    faults: &mut u64,
    bytes: &[u8],
) -> Result<usize, Failed>
    ensures bound { WritesAtMost result bytes.now }
    ensures some { IfOk result (λ n. 0 < length bytes.now → 0 < n) }
    ensures bytes { IfOk result (λ n. Appends (W.contents writer.old) (W.contents writer.new) (take n bytes.now)) }
    ensures counted { faults.old ≤ faults.new }
    ensures failed { OnErr result (Rose faults.old faults.new) }
{
    for _turn in 0..u64::MAX {
        match written(writer, bytes) {
            Ok(count) => return Ok(count),
            Err(interrupted) => {
                *faults = faults.saturating_add(1);
                if !interrupted {
                    return Err(Failed);
                }
            }
        }
    }
    Err(Failed)
}

/// Writes and flushes once. An error says whether the write was interrupted before it took anything.
fn written<W: Write>(writer: &mut W, bytes: &[u8]) -> Result<usize, bool>
    ensures bound { WritesAtMost result bytes.now }
    ensures some { IfOk result (λ n. 0 < length bytes.now → 0 < n) }
    ensures bytes { IfOk result (λ n. Appends (W.contents writer.old) (W.contents writer.new) (take n bytes.now)) }
    ensures again { IfErr result (λ interrupted. IsTrue interrupted → Keeps (W.contents writer.old) (W.contents writer.new)) }
{
    match writer.write(bytes) {
        Err(error) => Err(error.kind() == ErrorKind::Interrupted),
        Ok(0) if !bytes.is_empty() => Err(false),
        Ok(count) => match writer.flush() {
            Err(_) => Err(false),
            Ok(()) => Ok(count),
        },
    }
}

/// Waits for the next connection, and for another after an interruption or one that was given up before it
/// was had. Each error counts as a fault.
pub(crate) fn accept_again<A: OpenListener>(
    listener: &A,
    faults: &mut u64,
) -> Result<A::Stream, Failed>
    ensures counted { faults.old ≤ faults.new }
    ensures failed { OnErr result (Rose faults.old faults.new) }
{
    for _turn in 0..u64::MAX {
        match listener.accept() {
            Ok((stream, _)) => return Ok(stream),
            Err(error) => {
                *faults = faults.saturating_add(1);
                if !is_passing(&error) {
                    return Err(Failed);
                }
            }
        }
    }
    Err(Failed)
}

/// Whether the next connection may still be had after such an error.
fn is_passing(error: &Error) -> bool {
    matches!(
        error.kind(),
        ErrorKind::Interrupted | ErrorKind::ConnectionAborted
    )
}
