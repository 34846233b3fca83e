ghost use Rattle.std.specs.Prelude.{◌≡◌, ◌≤◌};
ghost use Rattle.mpm_names.specs.Readings.{IsSuch};
ghost use Rattle.mpm_spool.specs.Spoolers.{file_block as file_block_of, read_only as block_read_only, row_at as row_of_bytes, IsSpoolerRow};

use crate::list::{SpoolItem, SpoolList, no_item, read_list};
use crate::table::Row;
use crate::waiting::Waiting;
use mpm_base::{Call, Reply, functions, in_width};
use mpm_messages::{ask, ask_file};
use std::marker::Model;

/// The user queue control blocks of the spooler's two queues, which are queues 1 and 2, so that their pointers are 2 and 3.
const SPOOL_BLOCK: [u8; 12] = *b"\x02\x00\x00\x00SPOOL   ";

const STOP_BLOCK: [u8; 12] = *b"\x03\x00\x00\x00STOPSPLR";

/// The byte that ends a text.
const END_OF_TEXT: u8 = 0x1A;

/// The answer of a call that reads where a file has no record.
const NO_RECORD: u16 = 1;

/// The print spooler: it reads lists of files from its queue, and prints these files one after another.
#[derive(Drop)]
pub struct Spool {
    row: Row,
    /// The files of its list that are yet to be opened.
    left: Waiting,
    /// The file that it prints, and its control block.
    item: SpoolItem,
    fcb: [u8; 36],
    /// The record that it read last, and the place of the byte that comes next.
    bytes: [u8; 128],
    place: u8,
    /// How many bytes of the file it has printed.
    printed: u64,
    /// Whether the file isn't printed to its end.
    unprinted: bool,
}

impl Model for Spool {
    ghost use Rattle.std.specs.Prelude.{◌≤◌};
    ghost use Rattle.mpm_spool.specs.Spoolers.{Spooler, IsSpoolerRow};

    ghost Value = { Spooler };

    ghost view = { λ s. record { row = s.row; left = s.left; item = s.item; fcb = s.fcb; bytes = s.bytes; place = s.place; printed = s.printed; is_unprinted = s.unprinted } };

    ghost invariant = { λ s. (s.place ≤ 128) × IsSpoolerRow s.row s.place };
}

impl Spool {
    ghost use Rattle.std.specs.Prelude.{◌≡◌, ◌≤◌, [], take, true};
    ghost use Rattle.mpm_base.specs.Calls.{no_reply};
    ghost use Rattle.mpm_messages.specs.Asking.{Asks};
    ghost use Rattle.mpm_spool.specs.Printed.{GoesOnPrinting};
    ghost use Rattle.mpm_spool.specs.Spoolers.{opening, next_call, took as behind, took_at, with_block, row_at as row_of, begun_next, IsSpoolerRow};
    ghost use Rattle.mpm_spool.specs.declared.table.Row.TheVariants.{ReadList, Open, Read, Print, Detach};

    /// The spooler at its first row.
    #[tactic(auto, unfolding(crate::specs::Spoolers::opening, mpm_base::specs::Lists::zeros))]
    pub fn new() -> Spool
        ensures { result ≡ opening }
    {
        Spool {
            row: Row::ReadList,
            left: Waiting::none(),
            item: no_item(),
            fcb: [0; 36],
            bytes: [0; 128],
            place: 0,
            printed: 0,
            unprinted: false,
        }
    }

    /// Fills in the call that it makes next. It stays the same until its answer is taken.
    #[tactic(auto, unfolding(crate::specs::Spoolers::next_call))]
    pub fn next(&mut self, call: &mut Call)
        ensures { Asks next_call self.old self.new call.new }
    {
        match self.row {
            Row::ReadList => ask(call, functions::READ_QUEUE, 0, &SPOOL_BLOCK),
            Row::Open => ask_file(
                call,
                functions::OPEN_FILE,
                read_only(file_block(&self.item)),
                &self.item.password,
            ),
            Row::Attach => ask(call, functions::ATTACH_LIST, 0, &[]),
            Row::AskStop => ask(call, functions::CONDITIONAL_READ_QUEUE, 0, &STOP_BLOCK),
            Row::Read => ask_file(call, functions::READ_SEQUENTIAL, self.fcb, &[]),
            Row::Print => ask(
                call,
                functions::LIST_OUTPUT,
                u16::from(self.bytes[usize::from(self.place)]),
                &[],
            ),
            Row::Detach => ask(call, functions::DETACH_LIST, 0, &[]),
            Row::Close => ask_file(call, functions::CLOSE_FILE, self.fcb, &[]),
            Row::Delete => ask_file(
                call,
                functions::DELETE_FILE,
                file_block(&self.item),
                &self.item.password,
            ),
        }
    }

    /// The number of the function that it calls next.
    #[tactic(auto, unfolding(crate::specs::Spoolers::next_call))]
    pub fn function(&self) -> u8
        ensures { result ≡ (next_call self.now).function }
    {
        match self.row {
            Row::ReadList => functions::READ_QUEUE,
            Row::Open => functions::OPEN_FILE,
            Row::Attach => functions::ATTACH_LIST,
            Row::AskStop => functions::CONDITIONAL_READ_QUEUE,
            Row::Read => functions::READ_SEQUENTIAL,
            Row::Print => functions::LIST_OUTPUT,
            Row::Detach => functions::DETACH_LIST,
            Row::Close => functions::CLOSE_FILE,
            Row::Delete => functions::DELETE_FILE,
        }
    }

    /// Takes the answer to that call. Whatever the answers are, what it prints is the text of what it reads, and it asks for a file's
    /// deletion only after all of that.
    #[tactic(auto, using(crate::proofs::PrintedLaws::goes_on_printing))]
    pub fn took(&mut self, reply: &Reply)
        ensures took { self.new ≡ behind self.old reply.now }
        ensures prints { GoesOnPrinting self.old self.new reply.now }
    {
        self.take(reply);
    }

    /// Goes on by the answer to the call of its row.
    #[tactic(auto, unfolding(crate::specs::Spoolers::took, crate::specs::Spoolers::next_call))]
    fn take(&mut self, reply: &Reply)
        ensures { self.new ≡ behind self.old reply.now }
    {
        match self.row {
            Row::ReadList => self.take_list(reply),
            Row::Open => self.take_opened(reply),
            Row::Attach if reply.hl == 0 => self.row = Row::AskStop,
            Row::Attach => self.leave_unprinted(Row::Close),
            Row::AskStop if reply.hl == 0 => {
                self.left = Waiting::none();
                self.leave_unprinted(Row::Detach);
            }
            Row::AskStop => self.row = Row::Read,
            Row::Read => self.take_record(reply),
            Row::Print => self.go_on(),
            Row::Detach => self.row = Row::Close,
            Row::Close if self.item.delete && !self.unprinted => self.row = Row::Delete,
            Row::Close | Row::Delete => self.begin_next(),
        }
    }

    /// A message came: the files of its list are next. One that names none is dropped.
    fn take_list(&mut self, reply: &Reply)
        ensures { self.new ≡ took_at ReadList self.old reply.now }
    {
        if let Ok(list) = read_list(&in_width(reply.placed())) {
            self.begin_list(list);
        }
    }

    /// The first file of a list is next.
    fn begin_list(&mut self, list: SpoolList)
        requires { list.count ≤ 8 }
        ensures { self.new ≡ begun_next (record self.old { left = take list.count list.items }) }
    {
        self.left = Waiting::of(list);
        self.begin_next();
    }

    /// The next file of its list, or the next list.
    #[tactic(auto, unfolding(crate::specs::Spoolers::begun_next))]
    fn begin_next(&mut self)
        ensures { self.new ≡ begun_next self.old }
    {
        match self.left.take_first() {
            Some(item) => {
                self.item = item;
                self.printed = 0;
                self.unprinted = false;
                self.row = Row::Open;
            }
            None => self.row = Row::ReadList,
        }
    }

    /// The file is open, or isn't printed.
    fn take_opened(&mut self, reply: &Reply)
        ensures { self.new ≡ took_at Open self.old reply.now }
    {
        if reply.hl == 0 {
            self.keep_block(reply);
            self.row = Row::Attach;
        } else {
            self.begin_next();
        }
    }

    /// The file control block as it was answered.
    fn keep_block(&mut self, reply: &Reply)
        ensures { self.new ≡ with_block reply.now self.old }
    {
        if let Some(block) = reply.control_block() {
            self.fcb = *block;
        }
    }

    /// The file isn't printed to its end.
    fn leave_unprinted(&mut self, row: Row)
        requires { IsSpoolerRow row self.old.place }
        ensures { self.new ≡ record self.old { row = row; is_unprinted = true } }
    {
        self.row = row;
        self.unprinted = true;
    }

    /// A record came, or there is none.
    fn take_record(&mut self, reply: &Reply)
        ensures { self.new ≡ took_at Read self.old reply.now }
    {
        self.keep_block(reply);
        match reply.hl {
            0 => self.begin_record(in_width(reply.placed())),
            NO_RECORD => self.row = Row::Detach,
            _ => self.leave_unprinted(Row::Detach),
        }
    }

    /// The bytes of a record are next.
    fn begin_record(&mut self, bytes: [u8; 128])
        ensures { self.new ≡ record self.old { row = row_of bytes 0; bytes = bytes; place = 0 } }
    {
        self.row = row_at(&bytes, 0);
        self.bytes = bytes;
        self.place = 0;
    }

    /// A byte was printed.
    fn go_on(&mut self)
        requires { IsSpoolerRow Print self.old.place }
        ensures { self.new ≡ took_at Print self.old no_reply }
    {
        let place = self.place + 1;
        self.row = row_at(&self.bytes, place);
        self.place = place;
        self.printed = self.printed.saturating_add(1);
    }
}

/// What comes by the next byte of a record: it is printed, or ends the text; after the last it looks whether it is to stop.
fn row_at(bytes: &[u8; 128], place: u8) -> Row
    ensures { IsSuch (row_of_bytes bytes.now place) (λ row. IsSpoolerRow row place) result }
{
    let place = usize::from(place);
    if place >= 128 {
        Row::AskStop
    } else if bytes[place] == END_OF_TEXT {
        Row::Detach
    } else {
        Row::Print
    }
}

/// The file control block of a file: its drive, its name and its type.
#[tactic(auto, unfolding(mpm_base::specs::Lists::zeros))]
fn file_block(item: &SpoolItem) -> [u8; 36]
    ensures { result ≡ file_block_of item.now }
{
    let mut block = [0; 36];
    block[1..12].copy_from_slice(&item.name);
    block[0] = item.drive;
    block
}

/// A file control block with the attribute F6', by which its file is opened read-only.
fn read_only(block: [u8; 36]) -> [u8; 36]
    ensures { result ≡ block_read_only block }
{
    let mut marked = block;
    marked[6] |= 0x80;
    marked
}
