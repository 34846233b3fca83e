//! Each device on its happy path, a listed failure of each, and the refusals that are no want of memory.
use mpm_port::{Drives, FetchError, Fetched, Files, MemoryDrives, MemoryFiles, MemorySink, Sink};
use std::alloc::Global;
use std::test::Fail;

/// Whether some texts are put, or fail, as is said of each, and a text is written then.
fn puts(sink: &mut MemorySink, texts: &[(&[u8], bool)], written: &[u8]) -> bool {
    for (text, is_put) in texts {
        if sink.put(text).is_ok() != *is_put {
            return false;
        }
    }
    sink.written() == written
}

/// A sink with room for five bytes, whose call of that number fails.
fn sink_of_five(alloc: Global, call: u64) -> Result<MemorySink, Fail> {
    let mut sink = MemorySink::new(alloc, 5)?;
    sink.fail_at(call)?;
    Ok(sink)
}

#[test]
fn a_sink_keeps_what_was_put_and_refuses_one_byte_too_many(rt: HostRuntime) -> Result<(), Fail> {
    let mut sink = sink_of_five(rt.alloc(), 0)?;
    let texts = [
        (b"ab".as_slice(), true),
        (b"cdef".as_slice(), false),
        (b"cde".as_slice(), true),
    ];
    let all = puts(&mut sink, &texts, b"abcde");
    assert!(rt; all);
    Ok(())
}

#[test]
fn a_sink_fails_at_a_listed_call(rt: HostRuntime) -> Result<(), Fail> {
    let mut sink = sink_of_five(rt.alloc(), 2)?;
    let texts = [
        (b"a".as_slice(), true),
        (b"b".as_slice(), false),
        (b"c".as_slice(), true),
    ];
    let all = puts(&mut sink, &texts, b"ac");
    assert!(rt; all);
    Ok(())
}

/// Files of two names, the first of which is given its bytes twice. The call of that number fails.
fn two_files(alloc: Global, call: u64) -> Result<MemoryFiles, Fail> {
    let mut files = MemoryFiles::new(alloc);
    files.fail_at(call)?;
    files.add("MPM.SYS", b"old")?;
    files.add("B.PRL", b"four")?;
    files.add("MPM.SYS", b"abc")?;
    Ok(files)
}

/// Whether those files give their bytes, at most three of each.
fn give_their_bytes(files: &mut MemoryFiles, out: &mut Vec<u8>) -> bool {
    let whole = files.fetch("MPM.SYS", 3, out) == Ok(Fetched::Whole);
    let longer = files.fetch("B.PRL", 3, out) == Ok(Fetched::Longer);
    whole && longer && out.as_slice() == b"abcfou".as_slice()
}

#[test]
fn files_give_their_bytes(rt: HostRuntime) -> Result<(), Fail> {
    let mut files = two_files(rt.alloc(), 0)?;
    let mut out = Vec::new(rt.alloc());
    let given = give_their_bytes(&mut files, &mut out);
    assert!(rt; given);
    Ok(())
}

/// Whether the first fetch fails, though its file is there, and then one of a missing name alone.
fn fail_as_listed(files: &mut MemoryFiles, out: &mut Vec<u8>) -> bool {
    let first = files.fetch("B.PRL", 9, out) == Err(FetchError::Failed);
    let missing = files.fetch("C", 9, out) == Err(FetchError::Failed);
    let second = files.fetch("B.PRL", 9, out) == Ok(Fetched::Whole);
    first && missing && second && out.as_slice() == b"four".as_slice()
}

#[test]
fn files_fail_at_a_listed_call_and_a_missing_name(rt: HostRuntime) -> Result<(), Fail> {
    let mut files = two_files(rt.alloc(), 1)?;
    let mut out = Vec::new(rt.alloc());
    let failed = fail_as_listed(&mut files, &mut out);
    assert!(rt; failed);
    Ok(())
}

/// Drives with one image of two sectors, of ones and of twos. The call of that number fails.
fn two_sectors(alloc: Global, call: u64) -> Result<MemoryDrives, Fail> {
    let mut image = [1; 256];
    image[128..].copy_from_slice(&[2; 128]);
    let mut drives = MemoryDrives::new(alloc);
    drives.fail_at(call)?;
    drives.add("SYSTEM.DSK", &image)?;
    Ok(drives)
}

/// Whether drive D, once it is attached, has two sectors, of which the second reads as it was written.
#[tactic(auto, unfolding(mpm_port::specs::MemoryDisks::after_access))]
fn read_what_was_written(drives: &mut MemoryDrives) -> bool {
    if drives.attach(3, "SYSTEM.DSK") != Ok(()) || drives.size(3) != Ok(256) {
        return false;
    }
    let mut before = [0; 128];
    let mut other = [0; 128];
    let mut after = [0; 128];
    let first = drives.read(3, 1, &mut before) == Ok(()) && before[127] == 2;
    match drives.write(3, 1, &[7; 128]) {
        Ok(()) => {}
        Err(_) => return false,
    }
    let stays = drives.read(3, 0, &mut other) == Ok(()) && other[127] == 1;
    let second = drives.read(3, 1, &mut after) == Ok(()) && after[0] == 7;
    first && stays && second && drives.sync(3) == Ok(())
}

#[test]
fn drives_read_what_was_written(rt: HostRuntime) -> Result<(), Fail> {
    let mut drives = two_sectors(rt.alloc(), 0)?;
    let read = read_what_was_written(&mut drives);
    assert!(rt; read);
    Ok(())
}

/// Whether the first attaching fails, and then one of a missing name alone.
fn fail_to_attach(drives: &mut MemoryDrives) -> bool {
    let first = drives.attach(0, "SYSTEM.DSK") == Err(FetchError::Failed);
    let missing = drives.attach(0, "B") == Err(FetchError::Failed);
    let second = drives.attach(0, "SYSTEM.DSK") == Ok(());
    first && missing && second
}

#[test]
fn drives_fail_at_a_listed_attach_and_a_missing_name(rt: HostRuntime) -> Result<(), Fail> {
    let mut drives = two_sectors(rt.alloc(), 1)?;
    let failed = fail_to_attach(&mut drives);
    assert!(rt; failed);
    Ok(())
}

/// Whether a write to drive A, once it is attached, fails and changes nothing.
#[tactic(auto, unfolding(mpm_port::specs::MemoryDisks::after_access))]
fn fail_to_write(drives: &mut MemoryDrives) -> bool {
    if drives.attach(0, "SYSTEM.DSK") != Ok(()) || drives.size(0) != Ok(256) {
        return false;
    }
    match drives.write(0, 0, &[7; 128]) {
        Ok(()) => return false,
        Err(_) => {}
    }
    let mut sector = [0; 128];
    drives.read(0, 0, &mut sector) == Ok(()) && sector[0] == 1
}

#[test]
fn drives_fail_at_a_listed_write(rt: HostRuntime) -> Result<(), Fail> {
    let mut drives = two_sectors(rt.alloc(), 3)?;
    let failed = fail_to_write(&mut drives);
    assert!(rt; failed);
    Ok(())
}
