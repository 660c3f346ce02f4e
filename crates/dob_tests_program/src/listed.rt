// The files of the system, with a list of the calls on them; one of these fails if that is asked for.
use dob_cli::Claim;
use std::alloc::{Allocator, Global};
use std::cell::RefCell;
use std::fs::{Metadata, OpenFile, OpenOptions, Permissions};
use std::io::{self, ErrorKind, Read, Seek, SeekFrom, Write};
use std::rt::Files;

pub(crate) const NAME: &str = "ordered_by_a_test.db";

pub(crate) const PART: &str = "ordered_by_a_test.db.part";

pub(crate) const LINK: &str = "link_of_a_test.db";

pub(crate) const TARGET: &str = "linked_by_a_test.db";

// A file in a folder of another folder.
pub(crate) const DEEP: &str = "outer_of_a_test/inner_of_a_test/kept.db";

const DEEP_PART: &str = "outer_of_a_test/inner_of_a_test/kept.db.part";

pub(crate) const INNER: &str = "outer_of_a_test/inner_of_a_test";

pub(crate) const OUTER: &str = "outer_of_a_test";

// A file in the folder of all folders, which stands in for it here.
pub(crate) const ROOTED: &str = "/rooted_by_a_test.db";

const ROOTED_PART: &str = "/rooted_by_a_test.db.part";

// The calls that were made, a line each. The one that reads so fails. Where another run has the part, a look at it finds a file of that run from when the
// part's bytes are on the disk. A place that isn't to be read can't be found.
#[derive(Drop)]
pub(crate) struct Log {
    calls: RefCell<String>,
    failing: &'static str,
    pub(crate) has_other_run: bool,
    pub(crate) unread: Option<u64>,
}

impl Log {
    pub(crate) fn new(alloc: Global, failing: &'static str) -> Log {
        Log {
            calls: RefCell::new(String::new(alloc)),
            failing,
            has_other_run: false,
            unread: None,
        }
    }
}

impl Log {
    // Notes the call, and fails if it is the one that does.
    fn note(&self, call: &str, path: &'static str) -> io::Result<()> {
        let Ok(mut calls) = self.calls.try_borrow_mut() else {
            return Err(ErrorKind::Other.into());
        };
        let before = calls.len();
        let _ = write!(calls, "{call} {path}\n");
        if calls.get(before..) == Some(self.failing) {
            Err(ErrorKind::Other.into())
        } else {
            Ok(())
        }
    }

    // Whether the part's name leads to a file of another run.
    fn is_taken(&self, path: &str) -> bool {
        let Ok(calls) = self.calls.try_borrow() else {
            return false;
        };
        self.has_other_run && path == PART && calls.as_str().contains("sync part")
    }

    // Whether these are the calls that were made, in their order.
    pub(crate) fn says(&self, calls: &[&str]) -> bool {
        let Ok(made) = self.calls.try_borrow() else {
            return false;
        };
        let mut left = made.as_bytes();
        for part in calls {
            let Some(rest) = left.strip_prefix(part.as_bytes()) else {
                return false;
            };
            left = rest;
        }
        left.is_empty()
    }
}

// What the list says for a path.
fn called(path: &str) -> &'static str {
    match path {
        NAME | DEEP | ROOTED => "name",
        PART | DEEP_PART | ROOTED_PART => "part",
        LINK => "link",
        "." | INNER => "folder",
        "/" => "root",
        _ => "another",
    }
}

// Where it is: what stands in the folder of all folders is in the one where the test runs.
pub(crate) fn placed(path: &str) -> &str {
    match path {
        "/" => ".",
        _ => path.strip_prefix('/').unwrap_or(path),
    }
}

// The files of the system, with a list of the calls on them.
#[derive(Drop)]
pub(crate) struct Listed<'a, R> {
    pub(crate) rt: &'a R,
    pub(crate) log: &'a Log,
}

// One of them, by its name in the list.
#[derive(Drop)]
pub(crate) struct ListedFile<'a, F> {
    file: F,
    path: &'static str,
    log: &'a Log,
}

impl<'a, R: Files> Files for Listed<'a, R> {
    type File = ListedFile<'a, R::File>;

    type Dir = R::Dir;

    fn open_file(&self, how: &OpenOptions, path: &str) -> io::Result<ListedFile<'a, R::File>> {
        self.log.note("open", called(path))?;
        let file = self.rt.open_file(how, placed(path))?;
        Ok(ListedFile {
            file,
            path: called(path),
            log: self.log,
        })
    }

    fn open_dir(&self, path: &str) -> io::Result<R::Dir> {
        self.rt.open_dir(path)
    }

    fn metadata(&self, path: &str) -> io::Result<Metadata> {
        self.log.note("look behind", called(path))?;
        self.rt.metadata(path)
    }

    fn symlink_metadata(&self, path: &str) -> io::Result<Metadata> {
        self.log.note("look at", called(path))?;
        let path = if self.log.is_taken(path) { NAME } else { path };
        self.rt.symlink_metadata(placed(path))
    }

    fn copy(&self, from: &str, to: &str) -> io::Result<u64> {
        self.log.note("copy", called(from))?;
        self.rt.copy(from, to)
    }

    fn rename(&self, from: &str, to: &str) -> io::Result<()> {
        self.log.note("rename", called(from))?;
        self.rt.rename(placed(from), placed(to))
    }

    fn remove_file(&self, path: &str) -> io::Result<()> {
        self.log.note("remove", called(path))?;
        self.rt.remove_file(placed(path))
    }

    fn create_dir(&self, path: &str) -> io::Result<()> {
        self.rt.create_dir(path)
    }

    fn remove_dir(&self, path: &str) -> io::Result<()> {
        self.rt.remove_dir(path)
    }

    fn remove_dir_all<B: Allocator>(&self, alloc: B, path: &str) -> io::Result<()> {
        self.rt.remove_dir_all(alloc, path)
    }
}

impl<F: Read> Read for ListedFile<'_, F> {
    fn read(&mut self, room: &mut [u8]) -> io::Result<usize> {
        self.file.read(room)
    }
}

impl<F: Write> Write for ListedFile<'_, F> {
    fn write(&mut self, bytes: &[u8]) -> io::Result<usize> {
        self.log.note("write", self.path)?;
        self.file.write(bytes)
    }

    fn flush(&mut self) -> io::Result<()> {
        self.log.note("flush", self.path)?;
        self.file.flush()
    }
}

impl<F: Seek> Seek for ListedFile<'_, F> {
    fn seek(&mut self, to: SeekFrom) -> io::Result<u64> {
        match (to, self.log.unread) {
            (SeekFrom::Start(place), Some(unread)) if place == unread => Err(
                ErrorKind::Other.into(),
            ),
            _ => self.file.seek(to),
        }
    }
}

impl<F: OpenFile> OpenFile for ListedFile<'_, F> {
    fn metadata(&self) -> io::Result<Metadata> {
        self.log.note("ask", self.path)?;
        self.file.metadata()
    }

    fn set_len(&self, size: u64) -> io::Result<()> {
        self.log.note("cut", self.path)?;
        self.file.set_len(size)
    }

    fn sync_all(&self) -> io::Result<()> {
        self.log.note("sync", self.path)?;
        self.file.sync_all()
    }

    fn set_permissions(&self, permissions: Permissions) -> io::Result<()> {
        self.file.set_permissions(permissions)
    }

    fn sync_data(&self) -> io::Result<()> {
        self.log.note("sync the bytes of", self.path)?;
        self.file.sync_data()
    }
}

impl<F: Claim> Claim for ListedFile<'_, F> {
    fn claim(&self) -> io::Result<()> {
        self.log.note("claim", self.path)?;
        self.file.claim()
    }
}
