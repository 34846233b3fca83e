//! Who makes file calls, what they have, and what the last of them was answered; and the lines of a scene.
ghost use Rattle.std.specs.Prelude.{◌≤◌, length};

use crate::floppies::name_of_slot;
use mpm_base::{Call, Reply};
use mpm_procs::Process;

/// A line of a scene: what the next calls have, a call with what it is answered, or what is seen after it.
#[derive(Clone, Copy)]
pub enum Line<'a> {
    /// This process calls from here on: of user 0, with drive A, a record a call, and no default password.
    By(u8),
    /// The caller's user.
    User(u8),
    /// The caller's drive, from 0.
    Drive(u8),
    /// How many records its calls move.
    Records(u8),
    /// Its default password.
    Password(&'a [u8; 8]),
    /// Its calls have this one of four file control blocks.
    Block(u8),
    /// That block has this drive byte and the name of a letter; all else are zeros.
    File(u8, u8),
    /// The new name in that block is that of a letter.
    To(u8),
    /// A byte of that block.
    Byte(u8, u8),
    /// Bit 7 of a byte of the name.
    Attribute(u8),
    /// The random record.
    Random(u32),
    /// The parameter in DE.
    Word(u16),
    /// What stands at the DMA address.
    Sends(&'a [u8]),
    /// Bytes of one value stand there.
    Fills(u8),
    /// After so many records of the first byte that stands there stand bytes of this value.
    After(u8, u8),
    /// A call of a function, and its value.
    Asks(u8, u16),
    /// So many calls, each of which answers 0.
    Repeats(u8, u8),
    /// A call that enters service, takes so many turns and is then answered, and its value.
    Turns(u8, u32, u16),
    /// A call that is refused by an extended error on a drive, from 0.
    Refused(u8, u8, u8),
    /// A call in which its drive fails; it isn't answered. Both drives are mounted again then, and nothing is open any more.
    Fails(u8),
    /// The caller opens the files of these slots of drive B in unlocked mode, from the first to before the last.
    Opens(u8, u8),
    /// A process ends.
    Ends(u8),
    /// The last reply places these bytes first.
    Places(&'a [u8]),
    /// It places so many records, all of one byte.
    PlacesAll(u8, u8),
    /// The block has this byte now.
    Has(u8, u8),
}

/// A caller with its calls.
#[derive(Drop)]
pub(crate) struct Desk {
    pub(crate) pid: u8,
    pub(crate) process: Process,
    /// Whether its calls are done turn by turn, and not at once.
    pub(crate) in_turns: bool,
    blocks: [[u8; 36]; 4],
    block: u8,
    word: u16,
    sends: [u8; 4096],
    length: u16,
    pub(crate) reply: Reply,
}

/// The name of a letter.
fn name(letter: u8) -> [u8; 11] {
    let mut name = *b"        TXT";
    name[0] = letter;
    name
}

/// The block of a drive and a name.
fn block_of(drive: u8, name: &[u8; 11]) -> [u8; 36] {
    let mut block = [0; 36];
    block[0] = drive;
    block[1..12].copy_from_slice(name);
    block
}

/// So many records of a byte, after those of another.
fn filled(first: u8, byte: u8, other: u8) -> [u8; 4096] {
    let mut bytes = [byte; 4096];
    for (place, old) in bytes.iter_mut().enumerate() {
        if place / 128 < usize::from(first) {
            *old = other;
        }
    }
    bytes
}

impl Desk {
    /// A desk at which process 1 calls, which is as this one is, at once or turn by turn.
    pub(crate) fn new(process: &Process, in_turns: bool) -> Desk {
        Desk {
            pid: 1,
            process: *process,
            in_turns,
            blocks: [[0; 36]; 4],
            block: 0,
            word: 0,
            sends: [0; 4096],
            length: 0,
            reply: Reply::new(),
        }
    }

    /// Another process calls from here on.
    fn begin(&mut self, pid: u8) {
        self.pid = pid;
        self.process.user = 0;
        self.process.drive = 0;
        self.process.multi = 1;
        self.process.password = [0; 8];
    }

    /// The block of the next call.
    fn block_now(&self) -> [u8; 36] {
        self.blocks[usize::from(self.block % 4)]
    }

    /// Another block stands in its place.
    fn set_block(&mut self, block: [u8; 36]) {
        self.blocks[usize::from(self.block % 4)] = block;
    }

    /// A byte of it.
    fn set_byte(&mut self, place: u8, byte: u8) {
        let mut block = self.block_now();
        block[usize::from(place % 36)] = byte;
        self.set_block(block);
    }

    /// The new name in it.
    fn set_new_name(&mut self, letter: u8) {
        let mut block = self.block_now();
        block[17..28].copy_from_slice(&name(letter));
        self.set_block(block);
    }

    /// The random record in it.
    fn set_random(&mut self, record: u32) {
        let bytes = record.to_le_bytes();
        let mut block = self.block_now();
        block[33] = bytes[0];
        block[34] = bytes[1];
        block[35] = bytes[2];
        self.set_block(block);
    }

    /// What stands at the DMA address.
    fn set_sent(&mut self, bytes: &[u8]) {
        self.sends = [0; 4096];
        for (place, byte) in bytes.iter().enumerate() {
            if let Some(old) = self.sends.get_mut(place) {
                *old = *byte;
            }
        }
        self.length = 4096;
    }

    /// Records of one byte stand there.
    fn fill(&mut self, first: u8, byte: u8) {
        let other = self.sends[0];
        self.sends = filled(first, byte, other);
        self.length = 4096;
    }

    /// The file of a slot of drive B is in the last block, to be opened in unlocked mode.
    pub(crate) fn names_slot(&mut self, slot: u8) {
        self.block = 3;
        let mut block = block_of(2, &name_of_slot(slot));
        block[5] |= 0x80;
        self.set_block(block);
    }

    /// A call of a function.
    pub(crate) fn call(&self, function: u8) -> Call {
        let mut call = Call::new();
        call.begin(function, self.word, 0x80);
        call.set_control_block(self.block_now());
        call.append(sent(&self.sends, self.length));
        call
    }

    /// The block of the last call is as the reply has it.
    pub(crate) fn take_block(&mut self) {
        if self.reply.has_fcb {
            let block = self.reply.fcb;
            self.set_block(block);
        }
    }

    /// Whether the last reply begins with these bytes.
    fn places(&self, bytes: &[u8]) -> bool {
        let placed = self.reply.placed();
        for (place, byte) in bytes.iter().enumerate() {
            match placed.get(place) {
                Some(there) => {
                    if *there != *byte {
                        return false;
                    }
                }
                None => return false,
            }
        }
        true
    }

    /// Whether it has so many records, all of one byte.
    fn places_all(&self, records: u8, byte: u8) -> bool {
        let placed = self.reply.placed();
        if placed.len() != usize::from(records) * 128 {
            return false;
        }
        for there in placed {
            if *there != byte {
                return false;
            }
        }
        true
    }

    /// A line that makes no call: what the next call has, or whether what is seen is so.
    pub(crate) fn play(&mut self, line: &Line<'_>) -> bool {
        match line {
            Line::Places(bytes) => self.places(bytes),
            Line::PlacesAll(records, byte) => self.places_all(*records, *byte),
            Line::Has(place, byte) => self.block_now()[usize::from(*place % 36)] == *byte,
            _ => {
                self.take(line);
                true
            }
        }
    }

    /// What the next call has.
    fn take(&mut self, line: &Line<'_>) {
        match line {
            Line::By(pid) => self.begin(*pid),
            Line::User(user) => self.process.user = *user,
            Line::Drive(drive) => self.process.drive = *drive,
            Line::Records(count) => self.process.multi = *count,
            Line::Password(password) => self.process.password = **password,
            Line::Block(block) => self.block = *block,
            Line::File(drive, letter) => self.set_block(block_of(*drive, &name(*letter))),
            Line::To(letter) => self.set_new_name(*letter),
            Line::Byte(place, byte) => self.set_byte(*place, *byte),
            Line::Attribute(place) => {
                let byte = self.block_now()[usize::from(*place % 36)];
                self.set_byte(*place, byte | 0x80);
            }
            Line::Random(record) => self.set_random(*record),
            Line::Word(word) => self.word = *word,
            Line::Sends(bytes) => self.set_sent(bytes),
            Line::Fills(byte) => self.fill(0, *byte),
            Line::After(first, byte) => self.fill(*first, *byte),
            _ => {}
        }
    }
}

/// What stands at the DMA address, as far as it goes.
fn sent(bytes: &[u8; 4096], many: u16) -> &[u8]
    ensures { length result.now ≤ 4096 }
{
    &bytes[..usize::from(many).min(4096)]
}
