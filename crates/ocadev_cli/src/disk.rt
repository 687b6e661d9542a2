//! How the objects of a device are written over a file: a new file takes the place of the old one. And the claim of one
//! device to that file.
ghost use Rattle.std.specs.Prelude.{◌≡◌, ◌++◌, IfOk, codes, is_ok, string_bytes};
ghost use Rattle.ocadev_cli.specs.Storing.{DiskState, Replaces, StoresBy, SyncsFolder, SyncsNew, Tries, WritesNew};

use super::objects::{EndLine, file_failure};
use oca_program::{Failure, RunFault, print_line};
use oca_script::{Printer, ToWriter};
use oca_textree::print_tree;
use oca_tree::Tree;
use oca_types::NoMemory;
use std::alloc::Global;
use std::fs::{self, File, Metadata, OpenOptions, Permissions, TryLockError};
use std::io::{self, ErrorKind};
use std::os::unix::fs::{MetadataExt, PermissionsExt, lchown};
use std::path::Path;
use std::rt::Files;

/// A file that a new one takes the place of, by steps, each of which the system may refuse.
///
/// Where it tells, `tried` of its state are all steps that were tried, and whether they were done.
pub trait Disk {
    /// What the disk says of itself.
    ghost state: { Self → DiskState };

    /// Writes the objects to a new file, in the folder of the old one. Err with the system's error if the system
    /// refuses.
    fn write_new(&mut self, tree: &Tree) -> io::Result<()>
        ensures { Tries WritesNew (is_ok result) tree.now (state self.old) (state self.new) };

    /// Waits until the new file is on the disk. Err with the system's error if the system refuses.
    fn sync_new(&mut self) -> io::Result<()>
        ensures { Tries SyncsNew (is_ok result) (state self.old).tree (state self.old) (state self.new) };

    /// Puts the new file in the place of the old one. Err with the system's error if the system refuses: then the old
    /// file is still there.
    fn replace(&mut self) -> io::Result<()>
        ensures { Tries Replaces (is_ok result) (state self.old).tree (state self.old) (state self.new) };

    /// Waits until the folder of the file is on the disk. Err with the system's error if the system refuses.
    fn sync_folder(&mut self) -> io::Result<()>
        ensures { Tries SyncsFolder (is_ok result) (state self.old).tree (state self.old) (state self.new) };
}

/// Stores the objects of `tree` in four steps. It writes them to a new file, and waits until this is on the disk. Then
/// it puts the new file in the place of the old one, and waits until the folder is on the disk. Err with the system's
/// error at the first step that fails; the steps after it are not tried. If one of the first three steps fails, the old
/// file is still in its place, and a new file, perhaps not whole, may remain beside it. If the last step fails, the new
/// file is in its place, but a power cut may undo this.
#[tactic(auto, using(crate::proofs::StoringLemmas::steps))]
pub fn write_over<D: Disk>(disk: &mut D, tree: &Tree) -> io::Result<()>
    ensures { StoresBy (is_ok result) tree.now (D.state disk.old) (D.state disk.new) }
{
    disk.write_new(tree)?;
    disk.sync_new()?;
    disk.replace()?;
    disk.sync_folder()
}

/// What the system says of the plain file at a path. `None` if there is no plain file, or the system does not say.
fn plain_at<N: Files>(system: &N, path: &str) -> Option<Metadata> {
    fs::symlink_metadata(system, path)
        .ok()
        .filter(|found| found.is_file())
}

/// A file of the system, which does not tell, and the new file beside it.
#[derive(Drop)]
pub struct FileDisk<'l, 'p, N> {
    system: &'l N,
    path: &'p str,
    /// The path of the new file.
    fresh: String,
    /// The new file, locked, until it takes the place of the old one.
    made: Option<File>,
    /// The file at the path, locked: the one that was there at the start, or that took its place last. It stays open,
    /// so that no other file gets its number.
    held: Option<File>,
    /// The lock that keeps other devices away from the path.
    _lock: File,
    /// Of what file a new one gets the mode and the owner: of the plain file that was there last, at the start or when
    /// one was made, or of the new file that was made last.
    model: Option<Metadata>,
}

impl<'l, 'p, N: Files<File = File>> FileDisk<'l, 'p, N> {
    /// The disk with the file at `path`, to which this is the claim. A new file beside it gets the mode and the owner of
    /// the plain file that was last seen there. Nothing is read or written. Refusal: `NoMemory`, if memory was refused.
    pub fn new(
        alloc: Global,
        system: &'l N,
        path: &'p str,
        claim: Claim,
    ) -> Result<FileDisk<'l, 'p, N>, NoMemory>
        ensures { IfOk result (λ disk. string_bytes disk.fresh ≡ disk.path.now ++ codes ".new") }
    {
        let Ok(fresh) = format!(in alloc; "{path}.new") else {
            return Err(NoMemory);
        };
        Ok(FileDisk {
            system,
            path,
            fresh,
            made: None,
            held: claim.file,
            _lock: claim.lock,
            model: plain_at(system, path),
        })
    }

    /// Refuses if the plain file at the path is neither the one that this device found at its start nor one that it put
    /// there: another device has the state then.
    fn check_place(&self) -> io::Result<()> {
        let Some(found) = plain_at(self.system, self.path) else {
            return Ok(());
        };
        if let Some(file) = &self.held {
            let its = file.metadata()?;
            if its.dev() == found.dev() && its.ino() == found.ino() {
                return Ok(());
            }
        }
        let why = "another program put a file in its place";
        Err(io::Error::new(ErrorKind::Other, why))
    }

    /// Makes the new file and locks it. One that was left is removed first; a symbolic link in its place is not
    /// followed.
    fn make_new(&mut self) -> io::Result<File> {
        if let Some(found) = plain_at(self.system, self.path) {
            self.model = Some(found);
        }
        let fresh = self.fresh.as_str();
        let _ = fs::remove_file(self.system, fresh);
        let mut options = OpenOptions::new();
        options.write(true).create_new(true);
        let file = options.open(self.system, fresh)?;
        file.try_lock()?;
        let new = file.metadata()?;
        match &self.model {
            Some(old) => {
                if new.uid() != old.uid() || new.gid() != old.gid() {
                    lchown(self.system, fresh, Some(old.uid()), Some(old.gid()))?;
                }
                file.set_permissions(Permissions::from_mode(old.mode()))?;
            }
            None => self.model = Some(new),
        }
        Ok(file)
    }
}

impl<'l, 'p, N: Files<File = File>> Disk for FileDisk<'l, 'p, N> {
    ghost use Rattle.ocadev_cli.specs.Storing.{silent_disk};

    ghost state = { λ _. silent_disk };

    /// Writes the objects to the new file, which is made first, with a last line that says how many they are. Refused
    /// where another device has the state.
    fn write_new(&mut self, tree: &Tree) -> io::Result<()> {
        self.check_place()?;
        let file = self.make_new()?;
        self.made = Some(file.try_clone()?);
        let printer = &mut Printer::new(ToWriter::new(file));
        if print_tree(tree, printer).is_err()
            || print_line(&EndLine(tree.len()), printer).is_err()
        {
            return Err(io::Error::new(ErrorKind::Other, "a write failed"));
        }
        Ok(())
    }

    /// Waits until the new file is on the disk; refused where none was written.
    fn sync_new(&mut self) -> io::Result<()> {
        match &self.made {
            Some(file) => file.sync_all(),
            None => Err(io::Error::new(ErrorKind::Other, "no new file")),
        }
    }

    /// Renames the new file to the path; refused where another device has the state.
    fn replace(&mut self) -> io::Result<()> {
        self.check_place()?;
        fs::rename(self.system, self.fresh.as_str(), self.path)?;
        self.held = self.made.take();
        Ok(())
    }

    /// Waits until the folder of the path is on the disk.
    fn sync_folder(&mut self) -> io::Result<()> {
        let folder = match Path::new(self.path).parent() {
            Some(folder) if !folder.as_str().is_empty() => folder.as_str(),
            _ => ".",
        };
        fs::open(self.system, folder)?.sync_all()
    }
}

/// The locks by which no other device keeps its objects in the same file. They last until this is dropped.
#[derive(Drop)]
pub struct Claim {
    /// FILE.lock.
    lock: File,
    /// FILE, if it exists.
    file: Option<File>,
}

impl Claim {
    /// Locks the file FILE at this path for one device. FILE.lock beside it is made if it does not exist, and locked;
    /// and so is FILE itself if it exists, since anyone may remove FILE.lock.
    ///
    /// The failure is `Read`: if FILE, FILE.new or FILE.lock exists and is no plain file (a folder, a FIFO or a
    /// symbolic link), if FILE.lock can't be made, if FILE can't be opened, or if one of them can't be locked, for
    /// example because another device has it; and `NoMemory` if memory was refused.
    pub fn new<N: Files<File = File>>(
        alloc: Global,
        system: &N,
        path: &str,
    ) -> Result<Claim, Failure> {
        let new = format!(in alloc; "{path}.new")?;
        let lock = format!(in alloc; "{path}.lock")?;
        for it in [path, new.as_str(), lock.as_str()] {
            check_plain(alloc, system, it)?;
        }
        let mut options = OpenOptions::new();
        options.write(true).create(true);
        let lock = open_locked(alloc, system, &options, lock.as_str())?;
        let file = match fs::exists(system, path) {
            Ok(false) => None,
            _ => {
                let mut options = OpenOptions::new();
                options.read(true).write(true);
                Some(open_locked(alloc, system, &options, path)?)
            }
        };
        Ok(Claim { lock, file })
    }
}

/// Refuses what is at a path and is no plain file.
fn check_plain<N: Files>(alloc: Global, system: &N, path: &str) -> Result<(), Failure> {
    let why = match fs::symlink_metadata(system, path) {
        Ok(found) if found.is_file() => return Ok(()),
        Ok(found) if found.is_dir() => "a folder, and no plain file",
        Ok(found) if found.is_symlink() => "a symbolic link, and no plain file",
        Ok(_) => "no plain file",
        Err(reason) if reason.kind() == ErrorKind::NotFound => return Ok(()),
        Err(reason) => return Err(file_failure(alloc, RunFault::Read, path, reason)),
    };
    Err(file_failure(alloc, RunFault::Read, path, why))
}

/// The file at a path, opened with these options and locked.
fn open_locked<N: Files<File = File>>(
    alloc: Global,
    system: &N,
    options: &OpenOptions,
    path: &str,
) -> Result<File, Failure> {
    let file = options
        .open(system, path)
        .map_err(|reason| file_failure(alloc, RunFault::Read, path, reason))?;
    match file.try_lock() {
        Ok(()) => Ok(file),
        Err(TryLockError::WouldBlock) => {
            Err(file_failure(alloc, RunFault::Read, path, "another device has it"))
        }
        Err(TryLockError::Error(reason)) => Err(file_failure(alloc, RunFault::Read, path, reason)),
    }
}
