use super::{Disk, DiskError, Folder, Found, MemoryDisk};
use rd_base::Path;
use std::alloc::{Alloc, Global};
use std::fs;
use std::process::Abort;
use std::rt::Files;

fn holds(found: Result<Found, DiskError>, text: &str) -> Option<bool> {
    match found {
        Ok(Found::Bytes(bytes)) => Some(bytes.as_slice() == text.as_bytes()),
        Ok(_) | Err(DiskError::Failed) => Some(false),
        Err(DiskError::OutOfMemory) => None,
    }
}

fn write_and_read(rt: &impl Abort, alloc: Global) -> Option<()> {
    let here = Path::new(alloc, "a/b.txt").ok()?;
    let there = Path::new(alloc, "b.txt").ok()?;
    let mut disk = MemoryDisk::new(alloc);
    disk.fail_at(alloc, 4).ok()?;
    disk.write(alloc, &here, b"one").ok()?;
    disk.write(alloc, &here, b"two").ok()?;
    assert!(rt; holds(disk.read(alloc, &here), "two")?);
    assert!(rt; matches!(disk.read(alloc, &here), Err(DiskError::Failed)));
    assert!(rt; matches!(disk.read(alloc, &there), Ok(Found::Absent)));
    assert!(rt; holds(disk.read(alloc, &here), "two")?);
    Some(())
}

fn read_below_a_folder<R: Abort + Alloc + Files>(rt: &R, alloc: Global) -> Option<()> {
    fs::create_dir_all(rt, "some").ok()?;
    fs::write(rt, "some/here.txt", "text").ok()?;
    let here = Path::new(alloc, "some/here.txt").ok()?;
    let there = Path::new(alloc, "some/there.txt").ok()?;
    let folder = Path::new(alloc, "some").ok()?;
    let mut disk = Folder::new(rt);
    assert!(rt; holds(disk.read(alloc, &here), "text")?);
    assert!(rt; matches!(disk.read(alloc, &there), Ok(Found::Absent)));
    assert!(rt; matches!(disk.read(alloc, &folder), Err(DiskError::Failed)));
    fs::remove_dir_all(rt, "some").ok()
}

// Where one allocation is made to fail, a second try finds the memory that the first one wanted.

#[test]
fn memory_holds_what_is_written(rt: HostRuntime) {
    let alloc = rt.alloc();
    let done = write_and_read(&rt, alloc).or_else(|| write_and_read(&rt, alloc));
    assert_eq!(rt; done, Some(()));
}

#[test]
fn folder_finds_the_files_below_it(rt: HostRuntime) {
    let alloc = rt.alloc();
    let done = read_below_a_folder(&rt, alloc).or_else(|| read_below_a_folder(&rt, alloc));
    assert_eq!(rt; done, Some(()));
}
