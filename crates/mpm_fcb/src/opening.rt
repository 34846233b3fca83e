ghost use Rattle.std.specs.Prelude.{◌≡◌, ◌<◌, Some};
ghost use Rattle.mpm_fcb.specs.Opening as spec;

use crate::block::ControlBlock;
use crate::names::with_attributes;
use mpm_opens::Mode;

/// The number, with 1 added, of the last of the files that can be open.
const LAST_NUMBER: u16 = 64;

/// The open file that a number with 1 added names, as record locks do. (MP/M II Programmer's Guide, "Function 42: Lock
/// Record".)
pub fn item_numbered(number: u16) -> Option<u8>
    ensures { result ≡ spec.item_numbered number }
{
    if number == 0 || LAST_NUMBER < number {
        return None;
    }
    Some((number - 1) as u8)
}

/// The attributes without F5' and F6'.
fn without_f5_f6(attributes: &[bool; 11]) -> [bool; 11]
    ensures { result ≡ spec.without_f5_f6 attributes.now }
{
    let mut shown = *attributes;
    shown[4] = false;
    shown[5] = false;
    shown
}

/// The handle of an open file.
fn handle_of(item: u8) -> [u8; 16]
    requires { item < 64 }
    ensures { result ≡ spec.handle_of item }
{
    let mut handle = [0; 16];
    handle[0] = item + 1;
    handle
}

impl ControlBlock {
    ghost use Rattle.mpm_fcb.specs.Opening.{open_mode, made_mode, item_of, opened, with_xfcb, with_id};

    /// The mode in which an opening asks for the file. (MP/M II Programmer's Guide, "Function 15: Open File".)
    pub fn open_mode(&self) -> Mode
        ensures { result ≡ open_mode self.now }
    {
        if self.has_f6() {
            Mode::ReadOnly
        } else {
            self.made_mode()
        }
    }

    /// The mode in which a file that is made is opened. (MP/M II Programmer's Guide, "Function 22: Make File".)
    pub fn made_mode(&self) -> Mode
        ensures { result ≡ made_mode self.now }
    {
        if self.has_f5() {
            Mode::Unlocked
        } else {
            Mode::Locked
        }
    }

    /// The number of the open file that the block's handle names, 0 to 63, whosever it is; none where the bytes of the handle
    /// are others than an opening puts.
    #[tactic(auto, unfolding(crate::specs::Opening::item_of))]
    pub fn item(&self) -> Option<u8>
        ensures { result ≡ item_of self.now }
    {
        if self.map[1..] != [0; 15] {
            return None;
        }
        item_numbered(u16::from(self.map[0]))
    }

    /// Puts what an opening or a making answers: the file's attributes without F5' and F6', the record count of the block's
    /// extent, the handle of the open file, and in unlocked mode its number and 1 as R0 and R1.
    #[tactic(auto, using(crate::proofs::Handles::handle_found), unfolding(crate::specs::Opening::opened))]
    pub fn open(&mut self, attributes: &[bool; 11], count: u8, mode: Mode, item: u8)
        requires { item < 64 }
        ensures block { self.new ≡ opened self.old attributes.now count mode item }
        ensures item { item_of self.new ≡ Some item }
    {
        self.name = with_attributes(&self.name, &without_f5_f6(attributes));
        self.s1 = 0;
        self.s2 = 0;
        self.rc = count;
        self.map = handle_of(item);
        self.put_id(mode, item);
    }

    /// In unlocked mode, the number of the open file and 1 as R0 and R1.
    fn put_id(&mut self, mode: Mode, item: u8)
        requires { item < 64 }
        ensures block { self.new ≡ with_id mode item self.old }
        ensures map { self.new.map ≡ self.old.map }
    {
        match mode {
            Mode::Unlocked => {
                self.random = [item + 1, 0, self.random[2]];
            }
            Mode::Locked | Mode::ReadOnly => {}
        }
    }

    /// Tells the mode of an XFCB and its two stamps. (MP/M II Programmer's Guide, "Function 102: Read File XFCB".)
    #[tactic(auto, unfolding(crate::specs::Opening::with_xfcb))]
    pub fn tell_xfcb(&mut self, mode: u8, first: &[u8; 4], second: &[u8; 4])
        ensures { self.new ≡ with_xfcb self.old mode first.now second.now }
    {
        self.ex = mode;
        self.map[12..].copy_from_slice(second);
        self.map[8..12].copy_from_slice(first);
    }
}
