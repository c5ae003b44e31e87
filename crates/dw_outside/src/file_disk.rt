ghost use Rattle.std.specs.Prelude.{◌≡◌, ◌≤◌, ◌+◌, ◌^◌, ◌<◌, None, length, IfOk, OnOk, OnErr};
ghost use Rattle.std.specs.Io.{ReadsAtMost};
ghost use Rattle.dw_outside.specs.Faults.{Rose};

use crate::disk::Disk;
use crate::keeper_error::KeeperError;
use crate::traits::Failed;
use std::fs::{File, OpenOptions};
use std::io::{Error, ErrorKind};
use std::marker::Model;
use std::os::unix::fs::FileExt;
use std::rt::Files;

/// A file of the host, as a disk that tells nothing of its bytes.
#[derive(Drop)]
pub struct FileDisk {
    file: File,
    faults: u64,
}

impl Model for FileDisk {
    ghost use Rattle.std.specs.declared.fs.File.{File};
    ghost use Rattle.dw_outside.specs.Streams.{Stream};

    ghost Value = { Stream File };

    ghost view = { λ d. record { inner = d.file; faults = d.faults } };
}

impl FileDisk {
    /// Opens the file, or makes an empty one where there is none. What it holds stays.
    pub fn at<R: Files<File = File>>(rt: &R, path: &str) -> Result<FileDisk, KeeperError>
        ensures { IfOk result (λ d. d.faults ≡ 0) }
    {
        match OpenOptions::new()
            .read(true)
            .write(true)
            .create(true)
            .open(rt, path)
        {
            Ok(file) => Ok(FileDisk { file, faults: 0 }),
            Err(error) => Err(refusal(&error)),
        }
    }

    /// Counts an error as a fault.
    fn fault(&mut self) -> Failed
        ensures inner { self.new.inner ≡ self.old.inner }
        ensures counted { self.old.faults ≤ self.new.faults }
        ensures rose { Rose self.old.faults self.new.faults }
    {
        self.faults = self.faults.saturating_add(1);
        Failed
    }
}

fn refusal(error: &Error) -> KeeperError {
    match error.kind() {
        ErrorKind::OutOfMemory => KeeperError::OutOfMemory,
        _ => KeeperError::Failed,
    }
}

impl Disk for FileDisk {
    ghost model = { λ _. None };

    ghost faults = { λ d. d.faults };

    ghost stands = { λ _. tt };

    fn length(&mut self) -> Result<u64, Failed> {
        match self.file.metadata() {
            Ok(about) => Ok(about.len()),
            Err(_) => Err(self.fault()),
        }
    }

    /// Reads until the buffer is full or the file ends. Each error counts as a fault.
    fn read(&mut self, at: u64, buf: &mut [u8]) -> Result<usize, Failed> {
        let mut count = 0;
        for _turn in 0..u64::MAX {
            let place = at.saturating_add(count as u64);
            match self.file.read_at(&mut buf[count..], place) {
                Ok(0) => break,
                Ok(more) => count += more,
                Err(error) => {
                    self.faults = self.faults.saturating_add(1);
                    if error.kind() != ErrorKind::Interrupted {
                        return Err(Failed);
                    }
                }
            }
        }
        Ok(count)
    }

    /// Writes all of the bytes. Each error counts as a fault, and so does a write that takes nothing.
    fn write_at(&mut self, at: u64, bytes: &[u8]) -> Result<(), Failed> {
        let last = i64::MAX as u64;
        if at > last || bytes.len() as u64 > last - at {
            return Err(self.fault());
        }
        match self.file.write_all_at(bytes, at) {
            Ok(()) => Ok(()),
            Err(_) => Err(self.fault()),
        }
    }

    fn sync(&mut self) -> Result<(), Failed> {
        match self.file.sync_all() {
            Ok(()) => Ok(()),
            Err(_) => Err(self.fault()),
        }
    }
}
