ghost use Rattle.std.specs.Prelude.{◌≡◌, IfSome};
ghost use Rattle.mpm_opens.specs.Kinds.{is_file, is_on_drive, is_any, is_among};

use crate::items::Items;
use crate::kinds::{FileKey, FileSet, LockDone, LockSet, Mode, OpenRefused};
use crate::locks::Locks;
use mpm_base::Pid;
use std::marker::Model;

/// The files that processes have open, and the records that they have locked. An open file is an item, known by its number, 0
/// to 63, to the process that has it.
#[derive(Drop)]
pub struct Opens {
    items: Items,
    locks: Locks,
}

impl Model for Opens {
    ghost use Rattle.mpm_opens.specs.Opens.{OpenFiles, AreOpen};

    ghost Value = { OpenFiles };

    ghost view = { λ o. record { items = o.items; locks = o.locks } };

    ghost invariant = { λ o. AreOpen (record { items = o.items; locks = o.locks }) };
}

impl Opens {
    ghost use Rattle.std.specs.Prelude.{length};
    ghost use Rattle.mpm_opens.specs.declared.limits.TheConstants.{ITEMS};
    ghost use Rattle.mpm_opens.specs.Items.{place_at, number_of, is_of, file_where, file_named, have_others, have_others_on, refusal_of};
    ghost use Rattle.mpm_opens.specs.Locks.{owner_of};
    ghost use Rattle.mpm_opens.specs.Opens.{AreOpen, IsLive, item_of, IsItemOf, none_open, added, given_back, closed_at, written, Adds, Closes, NotesWritten, AsksLock, Unlocks, Leaves};

    /// Nothing is open, nothing is locked.
    #[tactic(auto, unfolding(crate::specs::Opens::none_open))]
    pub fn new() -> Opens
        ensures opens { result ≡ none_open }
        ensures sound { AreOpen result }
    {
        Opens {
            items: Items::new(),
            locks: Locks::new(),
        }
    }

    /// Opens a file for a process, once more or by a new item, and answers the item's number; a refused call changes nothing.
    /// (MP/M II Programmer's Guide, "Function 15: Open File".)
    #[tactic(auto, unfolding(crate::specs::Opens::added))]
    pub fn add(&mut self, p: Pid, file: FileKey, mode: Mode) -> Result<u8, OpenRefused>
        ensures { Adds p file mode self.old self.new result }
    {
        self.items.add(p, file, mode)
    }

    /// The number of a process's item of a file.
    #[tactic(auto, using(crate::proofs::OpeningLaws::number_is_live, crate::proofs::FindingLaws::is_its_item))]
    pub fn item(&self, p: Pid, file: FileKey) -> Option<u8>
        ensures number { result ≡ number_of self.now.items p file }
        ensures its { IfSome result (λ item. IsItemOf self.now p file item) }
    {
        self.items.number_of(p, &file)
    }

    /// The file of an item that a process names as a file control block does: by the item's number, `drive`, 0 to 15 for A to P,
    /// and `name`, without the attributes in bit 7. None where the number is none of its items, 64 and more among them, or the
    /// item's file is another. The user isn't looked at: the answer has that of the item. (MP/M II Programmer's Guide, "File
    /// Control Block Definition".)
    #[tactic(auto, using(crate::proofs::OpeningLaws::named_is_live, crate::proofs::FindingLaws::is_named_item))]
    pub fn named(&self, p: Pid, item: u8, drive: u8, name: &[u8; 11]) -> Option<FileKey>
        ensures file { result ≡ file_named self.now.items p item drive name.now }
        ensures its { IfSome result (λ file. IsItemOf self.now p file item) }
    {
        self.items.named(p, item, drive, name)
    }

    /// The file of a process's item, by the item's number; none where the number is none of its items, 64 and more among them.
    pub fn file(&self, p: Pid, item: u8) -> Option<FileKey>
        ensures file { result ≡ file_where (is_of p) (place_at self.now.items item) }
        ensures places { length self.now.items ≡ ITEMS }
    {
        self.items.file(p, item)
    }

    /// Why `add` would refuse a file, if it would.
    pub fn refusal(&self, p: Pid, file: FileKey, mode: Mode) -> Option<OpenRefused>
        ensures { result ≡ refusal_of self.now.items p file mode }
    {
        self.items.refusal(p, &file, mode)
    }

    /// The mode of an item.
    pub fn mode(&self, item: u8) -> Mode
        requires { IsLive self.now item }
        ensures { result ≡ (item_of self.now item).mode }
    {
        self.items.get(item).mode
    }

    /// Whether another process has an item of a file.
    pub fn others(&self, p: Pid, file: FileKey) -> bool
        ensures { result ≡ have_others self.now.items p file }
    {
        self.items.have_others(p, &file)
    }

    /// Whether another process has an item on a drive.
    pub fn on_drive(&self, p: Pid, drive: u8) -> bool
        ensures { result ≡ have_others_on self.now.items p drive }
    {
        self.items.have_others_on(p, drive)
    }

    /// Closes an item once; the last time gives it back, with its process's locks of the file. (MP/M II Programmer's Guide,
    /// "Function 16: Close File".)
    pub fn close(&mut self, item: u8)
        requires { IsLive self.old item }
        ensures { Closes item self.old self.new }
    {
        self.recall_sound();
        self.close_once(item);
    }

    /// Closes an item once.
    #[tactic(auto, unfolding(crate::specs::Opens::closed_at))]
    fn close_once(&mut self, item: u8)
        requires { IsLive self.old item }
        ensures { self.new ≡ closed_at self.old item }
    {
        let found = self.items.get(item);
        if 1 < found.count {
            self.items.close_once(item);
        } else {
            self.let_go(found.process, &FileSet::One(found.file));
        }
    }

    /// Notes that a record was written by way of an item, and answers whether that is the first.
    pub fn wrote(&mut self, item: u8) -> bool
        requires { IsLive self.old item }
        ensures { NotesWritten item self.old self.new result }
    {
        let found = self.items.get(item);
        self.items.note_written(item);
        !found.has_written
    }

    /// Whether a record was written by way of an item.
    pub fn has_written(&self, item: u8) -> bool
        requires { IsLive self.now item }
        ensures { result ≡ (item_of self.now item).has_written }
    {
        self.items.get(item).has_written
    }

    /// Locks a record of an item's file for its process, if nobody else has it; a refused call changes nothing. (MP/M II
    /// Programmer's Guide, "Function 42: Lock Record".)
    pub fn lock(&mut self, item: u8, number: u32) -> LockDone
        requires { IsLive self.old item }
        ensures { AsksLock item number self.old self.new result }
    {
        let found = self.items.get(item);
        self.locks.lock(found.process, found.file, number)
    }

    /// Frees a record of an item's file, if its process has the lock. (MP/M II Programmer's Guide, "Function 43: Unlock
    /// Record".)
    pub fn unlock(&mut self, item: u8, number: u32)
        requires { IsLive self.old item }
        ensures { Unlocks item number self.old self.new }
    {
        let found = self.items.get(item);
        self.locks.give_back(
            found.process,
            &LockSet::OnRecord {
                file: found.file,
                number,
            },
        );
    }

    /// Who has the lock of a record.
    pub fn owner(&self, file: FileKey, number: u32) -> Option<Pid>
        ensures owner { result ≡ owner_of self.now.locks file number }
        ensures sound { AreOpen self.now }
    {
        self.locks.owner(&file, number)
    }

    /// Says what is so of open files and locks at any time: no two locks are of one record.
    pub fn recall_sound(&self)
        ensures { AreOpen self.now }
    {
        // Reading a field tells it.
        let _ = &self.items;
    }

    /// A process's items on a drive are given back, however often they were opened, with its locks there. (MP/M II Programmer's
    /// Guide, "Function 39: Free Drive".)
    pub fn leave_drive(&mut self, p: Pid, drive: u8)
        ensures { Leaves p (is_on_drive drive) self.old self.new }
    {
        self.give_back_files(p, &FileSet::OnDrive(drive));
    }

    /// A process's item of a file is given back, if it has one, however often it was opened, with its locks there.
    pub fn leave_file(&mut self, p: Pid, file: FileKey)
        ensures { Leaves p (is_file file) self.old self.new }
    {
        self.give_back_files(p, &FileSet::One(file));
    }

    /// All items and locks of a process are given back.
    pub fn give_back(&mut self, p: Pid)
        ensures { Leaves p is_any self.old self.new }
    {
        self.give_back_files(p, &FileSet::All);
    }

    /// A process's items of some files are given back, with its locks there: nothing of these is left, and all else is as it was.
    fn give_back_files(&mut self, p: Pid, files: &FileSet)
        ensures { Leaves p (is_among files.now) self.old self.new }
    {
        self.recall_sound();
        self.let_go(p, files);
    }

    /// Gives back a process's items of some files and its locks there.
    #[tactic(auto, unfolding(crate::specs::Opens::given_back))]
    fn let_go(&mut self, p: Pid, files: &FileSet)
        ensures { self.new ≡ given_back self.old p (is_among files.now) }
    {
        self.items.give_back(p, files);
        self.locks.give_back(p, &LockSet::OnFiles(*files));
    }
}
