//! What no clause says: that calls succeed unless they are to fail, and that the system's files are reached, locked and
//! replaced whole.

use mb_files::RealHost;
use mb_host::{Host, HostEnd, HostFailed, MemoryHost};
use mb_model::{Bytes, Calls, File, Files, NoMemory};
use std::alloc::Global;
use std::fs::Permissions;
use std::os::unix::fs::PermissionsExt;
use std::test::Fail;
use std::{env, fs, io, process};

// A host with this file and another of the same name, at which the calls of these numbers fail.
fn host_of(alloc: Global, bytes: &[u8], failing: &[u64]) -> Result<MemoryHost, NoMemory> {
    let mut files = Files::new(alloc);
    push_file(alloc, &mut files, bytes)?;
    push_file(alloc, &mut files, b"second")?;
    let failing = Calls::from_vec(Vec::from_slice(alloc, failing)?);
    MemoryHost::new(alloc, files, failing)
}

// Appends a file of the name that the tests read.
fn push_file(alloc: Global, files: &mut Files, bytes: &[u8]) -> Result<(), NoMemory> {
    files.push(File {
        name: Bytes::copy(alloc, b"name")?,
        bytes: Bytes::copy(alloc, bytes)?,
    })
}

// Whether the file of this name is read and holds these bytes.
fn reads<H: Host>(host: &mut H, alloc: Global, name: &str, want: &[u8]) -> bool {
    match host.read(alloc, name) {
        Ok(bytes) => bytes.as_slice() == want,
        Err(_) => false,
    }
}

// Whether these bytes are written and then read.
fn keeps<H: Host>(host: &mut H, alloc: Global, name: &str, bytes: &[u8]) -> bool {
    host.write(name, bytes).is_ok() && reads(host, alloc, name, bytes)
}

// Whether there is no file of this name.
fn lacks<H: Host>(host: &mut H, alloc: Global, name: &str) -> bool {
    host.read(alloc, name).err() == Some(HostEnd::Failed)
}

// Whether a read, a write and a print, one after another, fail as given and not otherwise.
fn fails(host: &mut MemoryHost, alloc: Global, read: bool, write: bool, print: bool) -> bool {
    host.read(alloc, "name").is_err() == read
        && host.write("other", b"new").is_err() == write
        && host.print(b"line").is_err() == print
}

// Whether what is printed is held.
fn prints(host: &mut MemoryHost) -> bool {
    host.print(b"a line\n").is_ok()
        && host.print(b"more").is_ok()
        && host.printed() == b"a line\nmore".as_slice()
}

// Whether files are read, written and read again, and what is printed is held.
fn reads_and_writes(alloc: Global) -> Result<bool, NoMemory> {
    let mut host = host_of(alloc, b"first", &[])?;
    Ok(
        reads(&mut host, alloc, "name", b"first")
            && keeps(&mut host, alloc, "name", b"changed")
            && keeps(&mut host, alloc, "other", b"")
            && host.file("name") == Some(b"changed".as_slice())
            && lacks(&mut host, alloc, "third")
            && prints(&mut host),
    )
}

// Whether the calls of these numbers fail, and no others.
fn fails_by_number(alloc: Global) -> Result<bool, NoMemory> {
    let mut host = host_of(alloc, b"first", &[1, 3, 5])?;
    Ok(fails(&mut host, alloc, false, true, false) && fails(&mut host, alloc, true, false, true))
}

#[test]
fn files_are_read_and_written(rt: HostRuntime) {
    assert!(rt; reads_and_writes(rt.alloc()) == Ok(true));
}

#[test]
fn calls_fail_by_number(rt: HostRuntime) {
    assert!(rt; fails_by_number(rt.alloc()) == Ok(true));
}

// Whether the first file is read and these bytes are kept and printed; or, if an end is given, the read has this end
// and they are not.
fn is_kept(host: &mut MemoryHost, alloc: Global, bytes: &[u8], end: Option<HostEnd>) -> bool {
    let found = host.read(alloc, "name").err();
    let kept = keeps(host, alloc, "name", bytes)
        && keeps(host, alloc, "other", bytes)
        && host.print(bytes).is_ok()
        && host.printed() == bytes;
    found == end && kept == end.is_none()
}

// Whether a first file of this length is read and one like it is kept; or, if an end is given, the read has this end
// and none is kept.
fn is_long_file(alloc: Global, length: usize, end: Option<HostEnd>) -> Result<bool, NoMemory> {
    let bytes = vec![in alloc; 7; length]?;
    let mut host = host_of(alloc, &bytes, &[])?;
    Ok(is_kept(&mut host, alloc, &bytes, end))
}

#[test]
fn long_files_are_read_and_longer_ones_are_not(rt: HostRuntime) {
    assert!(rt; is_long_file(rt.alloc(), 1_077_248, None) == Ok(true));
    assert!(rt; is_long_file(rt.alloc(), 4_194_304, None) == Ok(true));
    assert!(rt; is_long_file(rt.alloc(), 4_194_305, Some(HostEnd::TooLong)) == Ok(true));
}

// The name of a file of this process, for the test with this word.
fn own_name(rt: &HostRuntime, word: &str) -> Result<String, Fail> {
    let folder = env::temp_dir(rt)?;
    let number = process::id(rt.process());
    Ok(format!(in rt.alloc(); "{}/mb_files-{number}-{word}", folder.display())?)
}

// Whether a long file and a short one in its place are kept, and a file is not reached if it is removed or has no name.
fn reaches(rt: &HostRuntime, alloc: Global, name: &str) -> bool {
    let mut host = RealHost::new(rt);
    keeps(&mut host, alloc, name, &[7; 200_000])
        && keeps(&mut host, alloc, name, b"short")
        && fs::remove_file(rt, name).is_ok()
        && lacks(&mut host, alloc, name)
        && host.write("", b"nowhere") == Err(HostFailed)
}

#[test]
fn system_files_are_reached(rt: HostRuntime) -> Result<(), Fail> {
    let name = own_name(&rt, "reached")?;
    assert!(rt; reaches(&rt, rt.alloc(), name.as_str()));
    Ok(())
}

// Whether of two hosts that have read one file one replaces it, and the other does not, before and after.
fn one_replaces(rt: &HostRuntime, alloc: Global, name: &str) -> bool {
    let mut first = RealHost::new(rt);
    let mut second = RealHost::new(rt);
    keeps(&mut first, alloc, name, b"old")
        && reads(&mut second, alloc, name, b"old")
        && second.write(name, b"lost") == Err(HostFailed)
        && first.write(name, b"new") == Ok(())
        && second.write(name, b"lost") == Err(HostFailed)
        && reads(&mut second, alloc, name, b"new")
}

#[test]
fn one_of_two_hosts_replaces_a_file(rt: HostRuntime) -> Result<(), Fail> {
    let name = own_name(&rt, "shared")?;
    assert!(rt; one_replaces(&rt, rt.alloc(), name.as_str()));
    fs::remove_file(&rt, name.as_str())?;
    Ok(())
}

// Whether a file that was moved away after it was read is not made anew, and is replaced once it is back.
fn moved_file_is_not_made(rt: &HostRuntime, alloc: Global, name: &str, other: &str) -> bool {
    let mut host = RealHost::new(rt);
    keeps(&mut host, alloc, name, b"old")
        && fs::rename(rt, name, other).is_ok()
        && host.write(name, b"lost") == Err(HostFailed)
        && lacks(&mut host, alloc, name)
        && fs::rename(rt, other, name).is_ok()
        && host.write(name, b"new") == Ok(())
}

#[test]
fn moved_files_are_not_made_anew(rt: HostRuntime) -> Result<(), Fail> {
    let name = own_name(&rt, "here")?;
    let other = own_name(&rt, "there")?;
    assert!(rt; moved_file_is_not_made(&rt, rt.alloc(), name.as_str(), other.as_str()));
    fs::remove_file(&rt, name.as_str())?;
    Ok(())
}

// The mode of a file.
fn mode_of(rt: &HostRuntime, name: &str) -> io::Result<u32> {
    Ok(fs::metadata(rt, name)?.permissions().mode() & 0o777)
}

// The modes of a file when it is made, and once another mode was set and the file was replaced.
fn modes(rt: &HostRuntime, name: &str) -> io::Result<(u32, u32)> {
    let mut host = RealHost::new(rt);
    let _ = host.write(name, b"old");
    let made = mode_of(rt, name)?;
    fs::set_permissions(rt, name, Permissions::from_mode(0o640))?;
    let _ = host.write(name, b"new");
    Ok((made, mode_of(rt, name)?))
}

#[test]
fn files_are_made_private_and_keep_their_mode(rt: HostRuntime) -> Result<(), Fail> {
    let name = own_name(&rt, "modes")?;
    let (made, kept) = modes(&rt, name.as_str())?;
    assert!(rt; made == 0o600 && kept == 0o640);
    fs::remove_file(&rt, name.as_str())?;
    Ok(())
}
