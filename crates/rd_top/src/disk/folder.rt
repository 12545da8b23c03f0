ghost use Rattle.std.specs.Prelude.{◌≡◌, None};

use super::{Disk, DiskError, Found, LONGEST_FILE};
use rd_base::{Bytes, OutOfMemory, Path};
use std::alloc::Global;
use std::fs;
use std::io::{ErrorKind, Read};
use std::rt::Files;

/// The current folder, with the files below it.
#[derive(Drop)]
pub struct Folder<'a, R: Files> {
    rt: &'a R,
    faults: u64,
}

impl<'a, R: Files> Folder<'a, R> {
    pub fn new(rt: &'a R) -> Folder<'a, R>
        ensures { result.faults ≡ 0 }
    {
        Folder { rt, faults: 0 }
    }
}

/// Reads to the end, or one byte past the greatest length.
fn read_all<F: Read>(alloc: Global, file: &mut F) -> Result<Found, DiskError> {
    let mut bytes = Vec::new(alloc);
    let mut piece = [0; 4096];
    // Each turn but the last takes a byte or more.
    for _ in 0..=LONGEST_FILE {
        let Ok(count) = file.read(&mut piece) else {
            return Err(DiskError::Failed);
        };
        if count == 0 {
            return whole(alloc, bytes);
        }
        if count > LONGEST_FILE.saturating_sub(bytes.len()) {
            return Ok(Found::Long);
        }
        if bytes.extend_from_slice(&piece[..count]).is_err() {
            return Err(DiskError::OutOfMemory);
        }
    }
    Ok(Found::Long)
}

fn whole(alloc: Global, bytes: Vec<u8>) -> Result<Found, DiskError> {
    match Bytes::from_vec(alloc, bytes) {
        Ok(bytes) => Ok(Found::Bytes(bytes)),
        Err(OutOfMemory) => Err(DiskError::OutOfMemory),
    }
}

fn read_below<R: Files>(rt: &R, alloc: Global, path: &Path) -> Result<Found, DiskError> {
    match fs::open(rt, path.as_str()) {
        Ok(mut file) => read_all(alloc, &mut file),
        Err(error) if error.kind() == ErrorKind::NotFound => Ok(Found::Absent),
        Err(_) => Err(DiskError::Failed),
    }
}

/// It tells nothing of its files: no contract says what the system gives.
impl<R: Files> Disk for Folder<'_, R> {
    ghost files = { λ _. None };

    ghost faults = { λ f. f.faults };

    fn read(&mut self, alloc: Global, path: &Path) -> Result<Found, DiskError> {
        let found = read_below(self.rt, alloc, path);
        if matches!(found, Err(DiskError::Failed)) {
            self.faults = self.faults.saturating_add(1);
        }
        found
    }
}
