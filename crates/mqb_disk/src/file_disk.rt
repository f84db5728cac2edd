ghost use Rattle.std.specs.Prelude.{◌≡◌, ◌+◌, ◌^◌, ◌<◌, ◌≤◌, Ok, IfOk, IsErr, OnOk, false};
ghost use Rattle.std.specs.Prelude.{length, true};
ghost use Rattle.mqb_outside.specs.Faults.{HasCause};
ghost use Rattle.mqb_outside.specs.Disk.{Counted};
ghost use Rattle.mqb_disk.specs.FileViews.{file_view, is_shared};

use crate::open_fault::{OpenFault, fault_of};
use mqb_base::Failed;
use mqb_outside::{Disk, MAX_DISK, reach};
use std::fs::{self, File, OpenOptions};
use std::io;
use std::os::unix::fs::FileExt;

/// A disk in a file of the operating system. It tells nothing of its contents.
///
/// From when it is opened until it is dropped it holds the system's lock on the file, so
/// that no other one is opened in it, here or in another program; but where both are
/// shared, which only read it.
#[derive(Drop)]
pub struct FileDisk {
    file: File,
    is_shared: bool,
    calls: u64,
    faults: u64,
    // Where the furthest read ends.
    reached: u64,
}

impl FileDisk {
    /// Opens a file that is there.
    pub fn open(rt: &HostRuntime, path: &str) -> Result<FileDisk, OpenFault>
        ensures shared { IfOk result (λ disk. is_shared disk ≡ false) }
        ensures calls { IfOk result (λ disk. (file_view disk).calls ≡ 0) }
        ensures faults { IfOk result (λ disk. (file_view disk).faults ≡ 0) }
        ensures reached { IfOk result (λ disk. (file_view disk).reached ≡ 0) }
    {
        match open_locked(rt, path) {
            Ok(file) => Ok(FileDisk::over(file, false)),
            Err(error) => Err(fault_of(&error)),
        }
    }

    /// Opens a file that is there for reading alone, beside others that only read it. No write or
    /// cut of it is made; a sync is, since it changes nothing.
    pub fn open_shared(rt: &HostRuntime, path: &str) -> Result<FileDisk, OpenFault>
        ensures shared { IfOk result (λ disk. is_shared disk ≡ true) }
        ensures calls { IfOk result (λ disk. (file_view disk).calls ≡ 0) }
        ensures faults { IfOk result (λ disk. (file_view disk).faults ≡ 0) }
        ensures reached { IfOk result (λ disk. (file_view disk).reached ≡ 0) }
    {
        match open_to_read(rt, path) {
            Ok(file) => Ok(FileDisk::over(file, true)),
            Err(error) => Err(fault_of(&error)),
        }
    }

    /// Opens a file, and makes it where it is not there. Its folder is synced, so that a crash does
    /// not take its name away.
    pub fn create(rt: &HostRuntime, path: &str) -> Result<FileDisk, OpenFault>
        ensures shared { IfOk result (λ disk. is_shared disk ≡ false) }
        ensures calls { IfOk result (λ disk. (file_view disk).calls ≡ 0) }
        ensures faults { IfOk result (λ disk. (file_view disk).faults ≡ 0) }
        ensures reached { IfOk result (λ disk. (file_view disk).reached ≡ 0) }
    {
        match make(rt, path) {
            Ok(file) => Ok(FileDisk::over(file, false)),
            Err(error) => Err(fault_of(&error)),
        }
    }

    fn over(file: File, shared: bool) -> FileDisk
        ensures shared { is_shared result ≡ shared }
        ensures calls { (file_view result).calls ≡ 0 }
        ensures faults { (file_view result).faults ≡ 0 }
        ensures reached { (file_view result).reached ≡ 0 }
    {
        FileDisk {
            file,
            is_shared: shared,
            calls: 0,
            faults: 0,
            reached: 0,
        }
    }

    // Counts a call, and a fault where it failed.
    fn note<T>(&mut self, done: io::Result<T>) -> Result<T, Failed>
        ensures calls { Counted 1 self.old.calls self.new.calls }
        ensures cause { HasCause self.old.faults self.new.faults result }
        ensures same { IfOk result (λ value. done ≡ Ok value) }
        ensures reached { self.new.reached ≡ self.old.reached }
    {
        self.calls = self.calls.saturating_add(1);
        match done {
            Ok(value) => Ok(value),
            Err(_) => {
                self.faults = self.faults.saturating_add(1);
                Err(Failed)
            }
        }
    }

    // The file, where it may be changed.
    fn changeable(&self) -> io::Result<&File>
        ensures { is_shared self.now ≡ true → IsErr result }
    {
        if self.is_shared {
            return Err(io::ErrorKind::PermissionDenied.into());
        }
        Ok(&self.file)
    }

    fn put(&self, at: u64, bytes: &[u8]) -> io::Result<()>
        requires { at + length bytes.now < 2 ^ 64 }
        ensures bound { OnOk result (at + length bytes.now ≤ MAX_DISK) }
        ensures refused { is_shared self.now ≡ true → IsErr result }
    {
        let file = self.changeable()?;
        if at + bytes.len() as u64 > MAX_DISK {
            return Err(too_long());
        }
        file.write_all_at(bytes, at)
    }

    fn shorten(&self, len: u64) -> io::Result<()>
        ensures { is_shared self.now ≡ true → IsErr result }
    {
        self.changeable()?.set_len(len)
    }
}

// Takes the system's lock on a file, without waiting. The system takes it back once the file is
// closed, also where the program was killed.
fn locked(file: File) -> io::Result<File> {
    match file.try_lock() {
        Ok(()) => Ok(file),
        Err(error) => Err(error.into()),
    }
}

fn open_locked(rt: &HostRuntime, path: &str) -> io::Result<File> {
    locked(OpenOptions::new().read(true).write(true).open(rt, path)?)
}

// Takes the lock that those who only read a file have together.
fn open_to_read(rt: &HostRuntime, path: &str) -> io::Result<File> {
    let file = File::open(rt, path)?;
    match file.try_lock_shared() {
        Ok(()) => Ok(file),
        Err(error) => Err(error.into()),
    }
}

// Makes a file where none is there, takes its lock, and syncs the folder that names it.
fn make(rt: &HostRuntime, path: &str) -> io::Result<File> {
    let file = OpenOptions::new()
        .read(true)
        .write(true)
        .create(true)
        .open(rt, path)?;
    let file = locked(file)?;
    let mut folder = fs::canonicalize(rt, path)?;
    folder.pop();
    File::open(rt, folder.as_str())?.sync_all()?;
    Ok(file)
}

fn too_long() -> io::Error {
    io::ErrorKind::FileTooLarge.into()
}

fn measured(file: &File) -> io::Result<u64>
    ensures { IfOk result (λ n. n ≤ MAX_DISK) }
{
    let len = file.metadata()?.len();
    if len > MAX_DISK {
        return Err(too_long());
    }
    Ok(len)
}

impl Disk for FileDisk {
    ghost use Rattle.mqb_disk.specs.lemmas.FileViews.{file_lawful};

    ghost view = { file_view };

    ghost lawful = { file_lawful };

    fn len(&mut self) -> Result<u64, Failed> {
        let done = measured(&self.file);
        self.note(done)
    }

    fn read_at(&mut self, at: u64, buf: &mut [u8]) -> Result<(), Failed> {
        self.reached = reach(self.reached, at, buf.len());
        let done = self.file.read_exact_at(buf, at);
        self.note(done)
    }

    fn write_at(&mut self, at: u64, bytes: &[u8]) -> Result<(), Failed>
        requires { at + length bytes.now < 2 ^ 64 }
        ensures refused { is_shared self.old ≡ true → IsErr result }
        ensures bound { OnOk result (at + length bytes.now ≤ MAX_DISK) }
        ensures reached { (file_view self.new).reached ≡ (file_view self.old).reached }
        ensures calls { Counted 1 (file_view self.old).calls (file_view self.new).calls }
        ensures cause { HasCause (file_view self.old).faults (file_view self.new).faults result }
    {
        let done = self.put(at, bytes);
        self.note(done)
    }

    fn cut(&mut self, len: u64) -> Result<(), Failed>
        ensures refused { is_shared self.old ≡ true → IsErr result }
        ensures reached { (file_view self.new).reached ≡ (file_view self.old).reached }
        ensures calls { Counted 1 (file_view self.old).calls (file_view self.new).calls }
        ensures cause { HasCause (file_view self.old).faults (file_view self.new).faults result }
    {
        let done = self.shorten(len);
        self.note(done)
    }

    fn sync(&mut self) -> Result<(), Failed> {
        let done = self.file.sync_data();
        self.note(done)
    }
}
