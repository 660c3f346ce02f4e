// The calls by which a file comes onto a disk, and their order: what a power cut may leave depends on it, and no clause speaks of it.
use crate::listed::{DEEP, INNER, LINK, Listed, Log, NAME, OUTER, PART, ROOTED, TARGET, placed};
use crate::shelves::{has, put, removes};
use crate::typed::silent;
use dob_cli::{Claim, Device, DiskShelf, ErrorRecorder, LastError, Shelf};
use std::fs;
use std::io::Read;
use std::process::Abort;
use std::rt::Files;

// How a file is made: its part is claimed, and looked for once more, before it is written; its bytes are on the disk before the name is theirs.
const MADE: &str = "look at name
look at part
remove part
open part
claim part
ask part
look at part
write part
flush part
sync part
ask part
look at part
";

// The name becomes theirs, and is on the disk before the shelf answers.
const NAMED: &str = "rename part
open folder
sync folder
";

// What becomes of a part that the shelf gives up.
const GIVEN_UP: &str = "ask part
look at part
remove part
";

// A link stays: the file that it leads to is written where it is, and put on the disk there.
const LINKED: &str = "look at link
open link
ask link
cut link
write link
flush link
ask link
sync link
";

// Puts the bytes under the name; that one of the calls fails; the calls that were made are these. Whether the shelf kept them.
fn puts<R: Abort + Files + AllocGlobal>(
    rt: &R,
    name: &str,
    bytes: &[u8],
    failing: &'static str,
    calls: &[&str],
) -> bool
where
    R::File: Claim,
{
    let log = Log::new(rt.alloc(), failing);
    puts_noted(rt, name, bytes, &log, calls)
}

// The same with that list of calls.
fn puts_noted<R: Abort + Files + AllocGlobal>(
    rt: &R,
    name: &str,
    bytes: &[u8],
    log: &Log,
    calls: &[&str],
) -> bool
where
    R::File: Claim,
{
    let files = Listed { rt, log };
    let note = LastError::new();
    let mut shelf = DiskShelf::new(&files, rt.alloc(), silent(), &note);
    let kept = put(&mut shelf, name, bytes);
    assert!(rt; log.says(calls));
    kept
}

// Whether the file of that name has exactly these bytes, by the system's own files.
fn stands<R: Files + AllocGlobal>(rt: &R, name: &str, bytes: &[u8]) -> bool
where
    R::File: Claim,
{
    let note = LastError::new();
    let mut shelf = DiskShelf::new(rt, rt.alloc(), silent(), &note);
    has(&mut shelf, name, bytes)
}

// The name keeps its bytes where that call fails, and those are the calls that were made.
fn leaves<R: Abort + Files + AllocGlobal>(rt: &R, failing: &'static str, calls: &[&str])
where
    R::File: Claim,
{
    assert!(rt; !puts(rt, NAME, b"new", failing, calls) && stands(rt, NAME, b"kept"));
}

// The calls up to a claim that another run has.
const CLAIMED: &str = "look at name\nlook at part\nremove part\nopen part\nclaim part\n";

#[test]
fn bytes_before_the_name(rt: HostRuntime) {
    assert!(rt; puts(&rt, NAME, b"kept", "", &[MADE, NAMED]));
    // a part that another run has claimed stays
    leaves(&rt, "claim part\n", &[CLAIMED]);
    removes(&rt, PART);
    // bytes that can't be put on the disk never get the name, nor do those whose name can't be changed; and there is no part
    leaves(&rt, "sync part\n", &[MADE, "remove part\n"]);
    leaves(&rt, "rename part\n", &[MADE, "rename part\n", GIVEN_UP]);
    assert!(rt; fs::symlink_metadata(&rt, PART).is_err());
    // a folder that can't be put on the disk: the file has its name, and the shelf says that it failed
    let calls = [MADE, NAMED, "ask part\nlook at part\n"];
    assert!(rt; !puts(&rt, NAME, b"whole", "sync folder\n", &calls) && stands(&rt, NAME, b"whole"));
    removes(&rt, NAME);
}

// The folder that is put on the disk is the one in which the name stands.
#[test]
fn the_folder_of_the_name(rt: HostRuntime) {
    assert!(rt; fs::create_dir_all(&rt, INNER).is_ok());
    assert!(rt; puts(&rt, DEEP, b"deep", "", &[MADE, NAMED]) && stands(&rt, DEEP, b"deep"));
    removes(&rt, DEEP);
    assert!(rt; fs::remove_dir(&rt, INNER).is_ok() && fs::remove_dir(&rt, OUTER).is_ok());
}

// The folder of a name in the folder of all folders is that one.
#[test]
fn the_folder_of_all_folders(rt: HostRuntime) {
    let calls = [MADE, "rename part\nopen root\nsync root\n"];
    assert!(rt; puts(&rt, ROOTED, b"rooted", "", &calls) && stands(&rt, placed(ROOTED), b"rooted"));
    removes(&rt, placed(ROOTED));
}

// A part that another run put in place of this one's doesn't get the name, and stays.
#[test]
fn the_part_of_another_run(rt: HostRuntime) {
    assert!(rt; puts(&rt, NAME, b"kept", "", &[MADE, NAMED]));
    let mut log = Log::new(rt.alloc(), "");
    log.has_other_run = true;
    let calls = [MADE, "ask part\nlook at part\n"];
    assert!(rt; !puts_noted(&rt, NAME, b"new", &log, &calls) && stands(&rt, NAME, b"kept"));
    assert!(rt; stands(&rt, PART, b"new"));
    removes(&rt, PART);
    removes(&rt, NAME);
}

// A reason of a device stays in the note until another one fails.
#[test]
fn a_cause_stays(rt: HostRuntime) {
    let note = LastError::new();
    let mut shelf = DiskShelf::new(&rt, rt.alloc(), silent(), &note);
    assert!(rt; shelf.find("no_file_of_a_test.db").is_err());
    let mut more = ErrorRecorder::new(silent(), Device::Input, &note);
    assert!(rt; more.read(&mut [0; 4]).is_ok());
    let said = shelf
        .said(rt.alloc())
        .expect(&rt, "memory")
        .expect(&rt, "a cause");
    assert!(rt; said.starts_with("no_file_of_a_test.db: "));
}

#[test]
fn a_link_stays(rt: HostRuntime) {
    let _ = fs::remove_file(&rt, LINK);
    assert!(rt; std::os::unix::fs::symlink(&rt, TARGET, LINK).is_ok());
    assert!(rt; puts(&rt, LINK, b"linked", "", &[LINKED]) && stands(&rt, TARGET, b"linked"));
    // it is a link yet, so that its name goes and the file stays
    removes(&rt, LINK);
    removes(&rt, TARGET);
}
