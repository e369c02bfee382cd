//! The file to which octets are appended that have to last.

ghost use Rattle.std.specs.Prelude.{◌≡◌, ◌≢◌, ◌+◌, ◌≤◌, true, false, Err, IfSome, OnErr, OnOk};
ghost use Rattle.mio_link.specs.Store.{is_open, awaits_disk, put_offs, GrowsBy};

use std::fs::{File, OpenOptions};
use std::io::{ErrorKind, Write};
use std::mem::replace;
use std::os::fd::AsRawFd;
use std::os::unix::fs::OpenOptionsExt;
use std::path::Path;
use std::rt::Files;
use std::{fs, io};
use wire_io::NextFault;

/// Who may read and write a file that is made: its owner.
const OWNER_ALONE: u32 = 0o600;

/// The last of the numbers of the standard streams.
const LAST_STANDARD: i32 = 2;

/// How often the wait for the disk is put off at most.
const MOST_PUT_OFF: u32 = 256;

/// A store. After a call of it failed none does anything, since the system may have dropped what it could
/// not write, and say so once.
#[derive(Drop)]
pub(crate) enum Store<F = File> {
    /// No file was named.
    Unopened,
    /// Octets are appended to the file, which nobody else has locked, and the disk has all of them.
    Open(F),
    /// Octets were appended to it that the disk may not have yet, and so often the wait for it was put off.
    Pending { file: F, put_off: u32 },
    /// A call failed.
    Failed,
}

impl Store {
    /// Opens the file of the name, or makes one that its owner alone may read and write; locks it, and has it
    /// and its folder on the disk. A store opens once. Want of memory is told only where no file was open yet,
    /// and then nothing was done; after a fault the store has failed. A file that another process has locked
    /// is a fault.
    pub(crate) fn open<R: Files<File = File>>(
        &mut self,
        rt: &R,
        name: &str,
    ) -> Result<(), NextFault>
        ensures ok { OnOk result (is_open self.new ≡ true) }
        ensures waits { OnOk result (awaits_disk self.new ≡ false) }
        ensures fault { result ≡ Err NextFault.Failed → self.new ≡ Store.Failed }
        ensures memory { result ≡ Err NextFault.NoMemory → self.new ≡ self.old }
        ensures once { self.old ≢ Store.Unopened → result ≡ Err NextFault.Failed }
    {
        let Store::Unopened = self else {
            self.fail();
            return Err(NextFault::Failed);
        };
        match opened(rt, name) {
            Ok(file) => self.hold(rt, file, name),
            Err(error) if error.kind() == ErrorKind::OutOfMemory => Err(NextFault::NoMemory),
            Err(_) => {
                self.fail();
                Err(NextFault::Failed)
            }
        }
    }

    /// Appends to this file from now on, once it is locked.
    fn hold<R: Files<File = File>>(
        &mut self,
        rt: &R,
        file: File,
        name: &str,
    ) -> Result<(), NextFault>
        ensures ok { OnOk result (is_open self.new ≡ true) }
        ensures waits { OnOk result (awaits_disk self.new ≡ false) }
        ensures fault { OnErr result (self.new ≡ Store.Failed) }
        ensures memory { result ≢ Err NextFault.NoMemory }
    {
        if lock(&file).is_err() || sync_folder(rt, name).is_err() {
            self.fail();
            return Err(NextFault::Failed);
        }
        *self = Store::Open(file);
        Ok(())
    }

    /// Cuts the file to so many octets, and has it on the disk. One with fewer is an error, and so is a store
    /// that isn't open; after an error the store has failed.
    pub(crate) fn cut(&mut self, length: u64) -> io::Result<()>
        ensures ok { OnOk result (is_open self.old ≡ true) }
        ensures kept { OnOk result (self.new ≡ self.old) }
        ensures err { OnErr result (self.new ≡ Store.Failed) }
    {
        let is_cut = match self.file() {
            Some(file) => cut(file, length).is_ok(),
            None => false,
        };
        if is_cut { Ok(()) } else { Err(self.fail()) }
    }

    /// The file, where it is open.
    fn file(&self) -> Option<&File>
        ensures { IfSome result (λ file. is_open self.now ≡ true) }
    {
        match self {
            Store::Open(file) | Store::Pending { file, .. } => Some(file),
            Store::Unopened | Store::Failed => None,
        }
    }

    /// Whether octets were appended that the disk may not have, or that can't be known any more since a call
    /// failed.
    pub(crate) fn awaits_disk(&self) -> bool
        ensures { result ≡ awaits_disk self.now }
    {
        match self {
            Store::Unopened | Store::Open(_) => false,
            Store::Pending { .. } | Store::Failed => true,
        }
    }

    /// Puts the wait for the disk off, and says whether it did: it is put off so often at most.
    pub(crate) fn put_off(&mut self) -> bool
        ensures open { is_open self.new ≡ is_open self.old }
        ensures kept { awaits_disk self.new ≡ awaits_disk self.old }
        ensures awaited { result ≡ true → awaits_disk self.new ≡ true }
        ensures counted { result ≡ true → put_offs self.new ≡ put_offs self.old + 1 }
        ensures bounded { result ≡ true → put_offs self.new ≤ 256 }
        ensures failed { self.old ≡ Store.Failed → (result ≡ false) × (self.new ≡ Store.Failed) }
    {
        if let Store::Pending { put_off, .. } = self {
            if *put_off < MOST_PUT_OFF {
                *put_off += 1;
                return true;
            }
        }
        false
    }

    /// Waits until the disk has all octets that were appended; it doesn't wait where it has them. A store that
    /// failed is an error again, and after an error the store has failed.
    pub(crate) fn sync(&mut self) -> io::Result<()>
        ensures ok { OnOk result (awaits_disk self.new ≡ false) }
        ensures only { OnOk result (self.old ≢ Store.Failed) }
        ensures kept { OnOk result (is_open self.new ≡ is_open self.old) }
        ensures err { OnErr result (self.new ≡ Store.Failed) }
    {
        match replace(self, Store::Failed) {
            Store::Pending { file, .. } => {
                file.sync_data()?;
                *self = Store::Open(file);
                Ok(())
            }
            Store::Failed => Err(self.fail()),
            synced => {
                *self = synced;
                Ok(())
            }
        }
    }
}

impl<F: Write + Drop> Store<F> {
    /// Appends the octets, which the disk may not have before `sync`. A store that isn't open takes none.
    /// After an error a front of them may be in the file, and the store has failed.
    pub(crate) fn append(&mut self, octets: &[u8]) -> io::Result<()>
        ensures ok { OnOk result (is_open self.old ≡ true) }
        ensures kept { OnOk result (is_open self.new ≡ true) }
        ensures waits { OnOk result (awaits_disk self.new ≡ true) }
        ensures put_off { OnOk result (put_offs self.new ≡ put_offs self.old) }
        ensures grows { OnOk result (GrowsBy F.contents self.old self.new octets.now) }
        ensures err { OnErr result (self.new ≡ Store.Failed) }
    {
        let (mut file, put_off) = match replace(self, Store::Failed) {
            Store::Open(file) => (file, 0),
            Store::Pending { file, put_off } => (file, put_off),
            Store::Unopened | Store::Failed => return Err(self.fail()),
        };
        file.write_all(octets)?;
        *self = Store::Pending { file, put_off };
        Ok(())
    }

    /// The store has failed.
    fn fail(&mut self) -> io::Error
        ensures failed { self.new ≡ Store.Failed }
    {
        *self = Store::Failed;
        io::Error::from(ErrorKind::Other)
    }
}

/// The file of the name, made where there is none, to be appended to. It has none of the numbers of the
/// standard streams, so that nothing lands in it that is meant for one of them.
fn opened<R: Files<File = File>>(rt: &R, name: &str) -> io::Result<File> {
    let file = OpenOptions::new()
        .append(true)
        .create(true)
        .mode(OWNER_ALONE)
        .open(rt, name)?;
    if file.as_raw_fd() > LAST_STANDARD {
        Ok(file)
    } else {
        file.try_clone()
    }
}

/// Locks the file, and has it on the disk.
fn lock(file: &File) -> io::Result<()> {
    file.try_lock()?;
    file.sync_all()
}

/// Cuts the file to so many octets, and has it on the disk.
fn cut(file: &File, length: u64) -> io::Result<()> {
    let found = file.metadata()?.len();
    if found < length {
        return Err(io::Error::from(ErrorKind::UnexpectedEof));
    }
    if found > length {
        file.set_len(length)?;
    }
    file.sync_all()
}

/// Has the names of the file's folder on the disk.
fn sync_folder<R: Files<File = File>>(rt: &R, name: &str) -> io::Result<()> {
    let folder = match Path::new(name).parent() {
        Some(folder) if !folder.as_str().is_empty() => folder.as_str(),
        _ => ".",
    };
    fs::open(rt, folder)?.sync_all()
}
