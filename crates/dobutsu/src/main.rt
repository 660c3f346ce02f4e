// The program `dobutsu`: its arguments, its streams, its files and its exit status.
//
// Choices:
// - Closed standard streams are filled with /dev/null by three opens at the start of `main`, since an open takes the lowest number that is free. It is opened
//   for reading alone, so that what is written to a stream that was closed fails. One run is stored, of a position, since a crate has one and a test can't
//   call `main`.
#![tactic(auto)]

use dob_cli::{Device, DiskShelf, ErrorRecorder, LastError, run_given};
use dob_device::Std;
use std::fs::OpenOptions;
use std::io::IsTerminal;
use std::process::ExitCode;

fn main(rt: HostRuntime) -> ExitCode {
    // These take the numbers of standard streams that were closed, so that no file that is opened later does.
    let mut how = OpenOptions::new();
    how.read(true);
    let _streams = [
        how.open(&rt, "/dev/null"),
        how.open(&rt, "/dev/null"),
        how.open(&rt, "/dev/null"),
    ];
    let note = LastError::new();
    ExitCode::from(run_given(
        &rt,
        rt.alloc(),
        std::env::args(&rt),
        &mut DiskShelf::new(&rt, rt.alloc(), rt.stdin(), &note),
        &mut Std::new(ErrorRecorder::new(rt.stdout(), Device::Output, &note)),
        &mut Std::new(rt.stderr()),
        rt.stderr().is_terminal(),
    ))
}
