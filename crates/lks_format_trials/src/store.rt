//! Files of the operating system, and a disk in memory that is opened.

use crate::same::same;
use lks_disk::{Disk, DiskFail, MemDisk};
use lks_store::{FileDisk, FileOpener, MemOpener, OpenStop, Opener};
use std::fs;
use std::test::Fail;

const FOLDER: &str = "lks_store_test";

const PATH: &str = "lks_store_test/journal";

/// The first bytes of a file, with how many there were at the end.
fn read(disk: &mut FileDisk) -> Result<[u8; 8], DiskFail> {
    let mut buf = [7; 8];
    let n = disk.read_at(0, &mut buf)?;
    buf[7] = n as u8;
    Ok(buf)
}

#[test]
fn keeps_bytes_through_reopening(rt: HostRuntime) -> Result<(), Fail> {
    let _ = fs::remove_dir_all(&rt, FOLDER);
    fs::create_dir(&rt, FOLDER)?;
    let mut opener = FileOpener::new(&rt);
    {
        let mut made = opener.open_store(PATH)?;
        same(&rt, &made.len(), &Ok(0), &"made.len");
        same(&rt, &made.write_at(0, b"abc"), &Ok(()), &"made.write_at");
        same(&rt, &made.sync(), &Ok(()), &"made.sync");
        same(&rt, &made.write_at(2, b"de"), &Ok(()), &"made.write_at");
        // Nobody else gets it meanwhile. It is dropped without a word.
        same(
            &rt,
            &opener.open_store(PATH).err(),
            &Some(OpenStop::Failed),
            &"opener.open_store",
        );
    }
    let mut again = opener.open_store(PATH)?;
    same(&rt, &again.len(), &Ok(4), &"again.len");
    same(
        &rt,
        &read(&mut again),
        &Ok([b'a', b'b', b'd', b'e', 7, 7, 7, 4]),
        &"read",
    );
    let mut tail = [7; 2];
    same(&rt, &again.read_at(3, &mut tail), &Ok(1), &"again.read_at");
    same(&rt, &tail, &[b'e', 7], &"tail");
    same(&rt, &again.read_at(9, &mut tail), &Ok(0), &"again.read_at");
    fs::remove_dir_all(&rt, FOLDER)?;
    Ok(())
}

/// A folder, a path through a file, and one through nothing.
const REFUSED: [&str; 4] = ["/", "/dev", "/dev/null/journal", "/nowhere/journal"];

#[test]
fn refuses_what_is_no_file(rt: HostRuntime) {
    let mut opener = FileOpener::new(&rt);
    for &path in REFUSED.iter() {
        same(
            &rt,
            &opener.open_store(path).err(),
            &Some(OpenStop::Failed),
            &path,
        );
    }
}

#[test]
fn tells_of_a_full_device(rt: HostRuntime) -> Result<(), Fail> {
    let mut full = FileOpener::new(&rt).open_store("/dev/full")?;
    same(&rt, &full.len(), &Ok(0), &"full.len");
    same(
        &rt,
        &full.write_at(0, b"abc"),
        &Err(DiskFail::Failed),
        &"full.write_at",
    );
    // No device is synced as a file is.
    same(&rt, &full.sync(), &Err(DiskFail::Failed), &"full.sync");
    Ok(())
}

#[test]
fn gives_a_disk_once(rt: HostRuntime) -> Result<(), Fail> {
    let alloc = rt.alloc();
    let mut opener = MemOpener::new(MemDisk::new(alloc, Vec::new(alloc)), false);
    let mut disk = opener.open_store("")?;
    same(&rt, &disk.len(), &Ok(0), &"disk.len");
    same(
        &rt,
        &opener.open_store("").err(),
        &Some(OpenStop::Failed),
        &"opener.open_store",
    );
    let mut failing = MemOpener::new(disk, true);
    same(
        &rt,
        &failing.open_store("").err(),
        &Some(OpenStop::Failed),
        &"failing.open_store",
    );
    Ok(())
}
