ghost use Rattle.std.specs.Prelude.{◌≡◌, [], length};
ghost use Rattle.mpm_command.specs.Commands.{IsCommand, tail_in};
ghost use Rattle.mpm_residents.specs.Interpreters.{no_command as command_of_nobody, request as request_for, records_in as records_of, byte_at as byte_of_reply, is_segment_of as is_segment_with, IsSegmentOf};
ghost use Rattle.std.specs.Bool.{OnTrue};
ghost use Rattle.mpm_names.specs.Readings.{IsBytes, IsSuch};

mod act;
mod asking;
mod table;

pub use crate::cli::act::Act;
use crate::cli::asking::{code_address, file_block, hand, message_in, queue_block, size_in};
use crate::cli::table::{
    Message, Row, row_after_begin, row_after_write, row_behind_code, row_behind_marks,
    row_for_memory, row_for_piece,
};
use mpm_base::{Call, FAILURE_CODE, Name8, Reply, Seg, SegmentSpec, functions};
use mpm_command::{BadName, Command, base_page, command_of, console_of, tail_of};
use mpm_loader::{BadHeader, Load};
use mpm_messages::{ask, ask_file};
use mpm_procs::NewProcess;
use std::marker::Model;

/// The most bytes of a file that a call reads: sixteen records.
const MOST: usize = 2048;

/// The user queue control block of the queue of commands, which is queue 0, so that its pointer is 1.
const COMMAND_BLOCK: [u8; 12] = *b"\x01\x00\x00\x00CliQ    ";

/// The answer of a call on a file that isn't found.
const NOT_FOUND: u16 = FAILURE_CODE;

/// The priority with which a program begins.
const PRIORITY: u8 = 200;

/// The command line interpreter: it reads commands from their queue, writes the tails of those that name a queue to it, and
/// loads the programs of all others and begins them. (MP/M II User's Guide, "Command Line Interpreter".)
#[derive(Drop)]
pub struct Cli {
    /// How many consoles there are.
    consoles: u8,
    row: Row,
    /// The console of the command.
    console: u8,
    command: Command,
    /// The message that has the command's tail.
    message: [u8; 130],
    /// The pointer of the queue of the command's name.
    pointer: u16,
    /// The file control block of the program's file.
    fcb: [u8; 36],
    load: Load,
    /// The segment that it reserved, and where that lies.
    seg: Seg,
    spec: SegmentSpec,
}

impl Model for Cli {
    ghost use Rattle.std.specs.Prelude.{◌≤◌, ◌<◌, length};
    ghost use Rattle.mpm_command.specs.Commands.{IsCommand, tail_in};
    ghost use Rattle.mpm_residents.specs.Interpreters.{Interpreter, IsInterpreterRow, IsProgramSegment};

    ghost Value = { Interpreter };

    ghost view = { λ c. record { consoles = c.consoles; row = c.row; console = c.console; command = c.command; tail = tail_in c.message; pointer = c.pointer; fcb = c.fcb; load = c.load; seg = c.seg; spec = c.spec } };

    ghost invariant = { λ c. (c.console < c.consoles) × IsCommand c.command × (length (tail_in c.message) ≤ 127) × IsProgramSegment c.spec × IsInterpreterRow c.row c.load };
}

impl Cli {
    ghost use Rattle.std.specs.Prelude.{◌≡◌, ◌≤◌, ◌<◌, ◌*◌, ◌++◌, length, false, if◌then◌else◌};
    ghost use Rattle.mpm_base.specs.declared.functions.TheConstants.{CONDITIONAL_WRITE_QUEUE, OPEN_FILE};
    ghost use Rattle.mpm_names.specs.Readings.{IsSuch};
    ghost use Rattle.mpm_command.specs.Commands.{IsCommand, tail_in};
    ghost use Rattle.mpm_loader.specs.Pieces.{has_all, marks_in, marked_length};
    ghost use Rattle.mpm_residents.specs.Interpreters.{opening, asking, asking_file, queue_block as block_of_queue, file_block as block_of_file, descriptor as descriptor_of, last_page as page_of_gates, next_call, next_act, act_at, process_of, took as behind, took_at, message_in as message_of_bytes, commanded, with_block, reserved, IsAct, IsNew, ActsBy, IsInterpreterRow, IsFilled};
    ghost use Rattle.mpm_residents.specs.Standing.{InterpreterStands, HandsIn};
    ghost use Rattle.mpm_residents.specs.declared.cli.table.Row.TheVariants.{Place, Patch, SetUser, OpenQueue, OpenRelocatable, OpenAbsolute, ReadHeader, ComputeSize, ReadOn};

    /// The interpreter of a system with so many consoles, one at least, at its first row.
    #[tactic(auto, unfolding(crate::specs::Interpreters::opening, mpm_base::specs::Lists::zeros))]
    pub fn new(consoles: u8) -> Cli
        requires { 0 < consoles }
        ensures { result ≡ opening consoles }
    {
        Cli {
            consoles,
            row: Row::ReadCommand,
            console: 0,
            command: no_command(),
            message: no_message(),
            pointer: 0,
            fcb: [0; 36],
            load: Load::nothing(),
            seg: Seg(0),
            spec: SegmentSpec { base: 0, pages: 2 },
        }
    }

    /// What it does next. It fills in the call that it makes, or the bytes that it hands over. It stays the same until the
    /// answer is taken. What it hands over comes into its segment alone.
    #[tactic(auto, using(crate::proofs::StandingLaws::hands_by))]
    pub fn next(&mut self, call: &mut Call) -> Act
        ensures stays { self.new ≡ self.old }
        ensures acts { ActsBy next_call next_act (IsAct self.old.consoles) self.old call.new result }
        ensures hands { InterpreterStands self.old → HandsIn self.old.seg self.old.spec result }
    {
        self.act(call)
    }

    /// The number of the function that it calls next, 0 where it hands something over.
    #[tactic(auto, unfolding(crate::specs::Interpreters::next_call))]
    pub fn function(&self) -> u8
        ensures { result ≡ (next_call self.now).function }
    {
        match self.row {
            Row::ReadCommand => functions::READ_QUEUE,
            Row::OpenQueue => functions::OPEN_QUEUE,
            Row::WriteQueue => functions::CONDITIONAL_WRITE_QUEUE,
            Row::SetUser | Row::SetUserZero => functions::SET_GET_USER_CODE,
            Row::OpenRelocatable | Row::OpenAbsolute => functions::OPEN_FILE,
            Row::ReadHeader | Row::ReadOn => functions::READ_SEQUENTIAL,
            Row::ComputeSize => functions::COMPUTE_FILE_SIZE,
            Row::Reserve { relocatable, .. } => request(relocatable),
            Row::Free { .. } => functions::MEMORY_FREE,
            Row::CloseAfter { .. } | Row::Close => functions::CLOSE_FILE,
            Row::Tell { .. } => functions::PRINT_STRING,
            Row::Place | Row::Patch | Row::PlaceBasePage | Row::Begin | Row::Give => 0,
        }
    }

    /// It takes the answer: of the call, or to what it handed over, which is 0, or FFh where no process could begin.
    pub fn took(&mut self, reply: &Reply)
        ensures took { self.new ≡ behind self.old reply.now }
        ensures stands { InterpreterStands self.old → InterpreterStands self.new }
    {
        self.take(reply);
    }

    /// The call of its row is filled in, or the bytes that it hands over. Answers what it does.
    #[tactic(auto, unfolding(crate::specs::Interpreters::next_act, crate::specs::Interpreters::next_call))]
    fn act(&self, call: &mut Call) -> Act
        ensures { ActsBy next_call next_act (IsAct self.now.consoles) self.now call.new result }
    {
        self.fill(call);
        match self.row {
            Row::Place => self.place_code(),
            Row::Patch => self.move_code(),
            Row::PlaceBasePage => Act::PlaceBytes {
                seg: self.seg,
                address: u16::from_le_bytes([0, self.spec.base]),
                length: 256,
            },
            Row::Begin => Act::BeginProcess {
                seg: self.seg,
                new: self.process(),
            },
            Row::Give => Act::GiveConsole {
                console: self.console,
            },
            _ => Act::Ask,
        }
    }

    /// The row to which the answer leads.
    #[tactic(auto, unfolding(crate::specs::Interpreters::took))]
    fn take(&mut self, reply: &Reply)
        ensures { self.new ≡ behind self.old reply.now }
    {
        match self.row {
            Row::ReadCommand => self.take_command(reply),
            Row::OpenQueue => self.take_queue(reply),
            Row::WriteQueue => self.row = row_after_write(reply.hl),
            Row::SetUser => self.row = Row::OpenRelocatable,
            Row::OpenRelocatable => self.take_relocatable(reply),
            Row::OpenAbsolute => self.take_absolute(reply),
            Row::ReadHeader => self.take_header(reply),
            Row::ComputeSize => self.take_size(reply),
            Row::SetUserZero => self.row = Row::ComputeSize,
            Row::Reserve { pages, .. } => self.take_segment(reply, pages),
            Row::Place => self.row = row_behind_code(&self.load),
            Row::Patch => self.row = row_behind_marks(&self.load),
            Row::ReadOn => self.take_records(reply),
            Row::Free { message } => self.row = Row::CloseAfter { message },
            Row::CloseAfter { message } => self.row = Row::Tell { message },
            Row::Close => self.row = Row::PlaceBasePage,
            Row::Tell { .. } => self.row = Row::Give,
            Row::Give => self.row = Row::ReadCommand,
            Row::PlaceBasePage => self.row = Row::Begin,
            Row::Begin => self.row = row_after_begin(reply.hl),
        }
    }

    /// The call of its row, or the bytes that it hands over.
    #[tactic(auto, unfolding(crate::specs::Interpreters::next_call))]
    fn fill(&self, call: &mut Call)
        ensures call { call.new ≡ next_call self.now }
        ensures filled { IsFilled self.now.row call.new.bytes }
    {
        match self.row {
            Row::ReadCommand => ask(call, functions::READ_QUEUE, 0, &COMMAND_BLOCK),
            Row::OpenQueue => ask(
                call,
                functions::OPEN_QUEUE,
                0,
                &queue_block(0, &self.command),
            ),
            Row::WriteQueue => self.fill_tail(call),
            Row::SetUser => ask(
                call,
                functions::SET_GET_USER_CODE,
                u16::from(self.command.user),
                &[],
            ),
            Row::OpenRelocatable => self.fill_open(call, b"PRL"),
            Row::OpenAbsolute => self.fill_open(call, b"COM"),
            Row::ReadHeader | Row::ReadOn => ask_file(
                call,
                functions::READ_SEQUENTIAL,
                self.fcb,
                &[],
            ),
            Row::ComputeSize => ask_file(call, functions::COMPUTE_FILE_SIZE, self.fcb, &[]),
            Row::SetUserZero => ask(call, functions::SET_GET_USER_CODE, 0, &[]),
            Row::Reserve { relocatable, pages } => ask(
                call,
                request(relocatable),
                0,
                &[0, pages, 0, 0],
            ),
            Row::Place => hand(call, self.load.code()),
            Row::Patch => hand(call, self.load.marks()),
            Row::Free { .. } => ask(call, functions::MEMORY_FREE, 0, &self.descriptor()),
            Row::CloseAfter { .. } | Row::Close => ask_file(
                call,
                functions::CLOSE_FILE,
                self.fcb,
                &[],
            ),
            Row::Tell { message } => ask(
                call,
                functions::PRINT_STRING,
                u16::from(self.console),
                message.text(),
            ),
            Row::Give | Row::Begin => hand(call, &[]),
            Row::PlaceBasePage => hand(call, &base_page(self.last_page(), tail_of(&self.message))),
        }
    }

    /// The call that writes the tail to the queue of the command's name.
    fn fill_tail(&self, call: &mut Call)
        ensures { call.new ≡ asking CONDITIONAL_WRITE_QUEUE 0 (block_of_queue self.now.pointer self.now.command ++ self.now.tail) }
    {
        ask(
            call,
            functions::CONDITIONAL_WRITE_QUEUE,
            0,
            &queue_block(self.pointer, &self.command),
        );
        call.append(tail_of(&self.message));
    }

    /// The call that opens the command's program of a type.
    fn fill_open(&self, call: &mut Call, kind: &[u8; 3])
        ensures { call.new ≡ asking_file OPEN_FILE (block_of_file self.now.command kind.now) self.now.command.password }
    {
        ask_file(
            call,
            functions::OPEN_FILE,
            file_block(&self.command, kind),
            &self.command.password,
        );
    }

    /// The descriptor of its segment.
    fn descriptor(&self) -> [u8; 4]
        ensures { result ≡ descriptor_of self.now.spec self.now.seg }
    {
        [self.spec.base, self.spec.pages, 0x80, self.seg.0]
    }

    /// The last page of its segment.
    fn last_page(&self) -> u8
        ensures { IsSuch (page_of_gates self.now.spec) (λ page. 0 < page) result }
    {
        self.spec.base + self.spec.pages - 1
    }

    /// The process of the program.
    #[tactic(auto, unfolding(crate::specs::Interpreters::process_of))]
    fn process(&self) -> NewProcess
        ensures { IsSuch (process_of self.now) (IsNew self.now.consoles) result }
    {
        NewProcess {
            name: self.command.name,
            priority: PRIORITY,
            console: self.console,
            seg: Some(self.seg),
            pc: u16::from_le_bytes([0, self.spec.base]) + 0x0100,
            sp: u16::from_le_bytes([0, self.last_page()]) - 2,
            dma: u16::from_le_bytes([0, self.spec.base]) + 0x0080,
            user: self.command.user,
            drive: self.command.drive,
        }
    }

    /// The code that it read last comes into its segment.
    fn place_code(&self) -> Act
        ensures { result ≡ act_at Place self.now }
    {
        Act::PlaceBytes {
            seg: self.seg,
            address: code_address(self.spec, self.load.code_place()),
            length: self.load.code().len() as u16,
        }
    }

    /// The code that is marked by what it read last is moved to the segment's first page.
    fn move_code(&self) -> Act
        requires { IsInterpreterRow Patch self.now.load }
        ensures act { result ≡ act_at Patch self.now }
        ensures bounds { (0 < marked_length self.now.load) × (marked_length self.now.load ≤ 8 * length (marks_in self.now.load)) }
    {
        Act::MoveCode {
            seg: self.seg,
            address: code_address(self.spec, self.load.marked_place()),
            length: self.load.marked_length() as u16,
            page: self.spec.base,
        }
    }

    /// A command came. It is dropped where its console isn't there.
    fn take_command(&mut self, reply: &Reply)
        ensures { self.new ≡ commanded (message_of_bytes reply.now.bytes) self.old }
    {
        let message = message_in(reply.placed());
        if self.consoles <= console_of(&message) {
            return;
        }
        self.console = console_of(&message);
        match command_of(&message) {
            Ok(command) => self.follow(command, message),
            Err(BadName) => self.row = Row::Tell {
                message: Message::BadLoad,
            },
        }
    }

    /// It follows a command: a queue may have its name, unless it names a drive.
    fn follow(&mut self, command: Command, message: [u8; 130])
        requires command { IsCommand command }
        requires tail { length (tail_in message) ≤ 127 }
        ensures { self.new ≡ record self.old { row = if command.names_drive then SetUser else OpenQueue; command = command; tail = tail_in message } }
    {
        self.command = command;
        self.message = message;
        self.row = if command.names_drive {
            Row::SetUser
        } else {
            Row::OpenQueue
        };
    }

    /// The queue of the command's name was found, or there is none.
    fn take_queue(&mut self, reply: &Reply)
        ensures { self.new ≡ took_at OpenQueue self.old reply.now }
    {
        if reply.hl == 0 {
            self.pointer = u16::from_le_bytes([byte_at(reply, 0), byte_at(reply, 1)]);
            self.row = Row::WriteQueue;
        } else {
            self.row = Row::SetUser;
        }
    }

    /// The file control block as it was answered.
    fn keep_block(&mut self, reply: &Reply)
        ensures { self.new ≡ with_block reply.now self.old }
    {
        if let Some(block) = reply.control_block() {
            self.fcb = *block;
        }
    }

    /// The page relocatable program is open, or isn't there.
    fn take_relocatable(&mut self, reply: &Reply)
        ensures { self.new ≡ took_at OpenRelocatable self.old reply.now }
    {
        self.keep_block(reply);
        self.row = match reply.hl {
            0 => Row::ReadHeader,
            NOT_FOUND => Row::OpenAbsolute,
            _ => Row::Tell {
                message: Message::BadLoad,
            },
        };
    }

    /// The program for page 0 is open, or isn't there.
    fn take_absolute(&mut self, reply: &Reply)
        ensures { self.new ≡ took_at OpenAbsolute self.old reply.now }
    {
        self.keep_block(reply);
        self.row = match reply.hl {
            0 => Row::ComputeSize,
            NOT_FOUND => Row::Tell {
                message: Message::NotFound,
            },
            _ => Row::Tell {
                message: Message::BadLoad,
            },
        };
    }

    /// The first records of a page relocatable program came.
    fn take_header(&mut self, reply: &Reply)
        ensures { self.new ≡ took_at ReadHeader self.old reply.now }
    {
        self.keep_block(reply);
        match self.load.begin_relocatable(records_in(reply)) {
            Ok(()) => self.row = row_for_memory(true, &self.load),
            Err(BadHeader) => self.row = Row::CloseAfter {
                message: Message::BadLoad,
            },
        }
    }

    /// The size of a program for page 0 came. Where the file isn't found, it is user 0's.
    fn take_size(&mut self, reply: &Reply)
        ensures { self.new ≡ took_at ComputeSize self.old reply.now }
    {
        self.keep_block(reply);
        if reply.hl == 0 {
            self.load.begin_absolute(size_in(&self.fcb));
            self.row = row_for_memory(false, &self.load);
        } else if reply.hl == NOT_FOUND {
            self.row = Row::SetUserZero;
        } else {
            self.row = Row::CloseAfter {
                message: Message::BadLoad,
            };
        }
    }

    /// A segment of so many pages at least was reserved, or there is none.
    fn take_segment(&mut self, reply: &Reply, pages: u8)
        requires { 2 ≤ pages }
        ensures { self.new ≡ reserved pages reply.now self.old }
    {
        if reply.hl == 0 && is_segment_of(pages, reply) {
            self.seg = Seg(byte_at(reply, 3));
            self.spec = SegmentSpec {
                base: byte_at(reply, 0),
                pages: byte_at(reply, 1),
            };
            self.row = row_for_piece(&self.load);
        } else {
            self.row = Row::CloseAfter {
                message: Message::NoMemory,
            };
        }
    }

    /// The next records came, or there are none.
    fn take_records(&mut self, reply: &Reply)
        requires { has_all self.old.load ≡ false }
        ensures { self.new ≡ took_at ReadOn self.old reply.now }
    {
        self.keep_block(reply);
        let records = records_in(reply);
        if records.is_empty() {
            self.row = Row::Free {
                message: Message::BadLoad,
            };
        } else {
            self.load.take(records);
            self.row = row_for_piece(&self.load);
        }
    }
}

/// No command.
#[tactic(auto, unfolding(mpm_base::specs::Lists::zeros))]
fn no_command() -> Command
    ensures { IsSuch command_of_nobody IsCommand result }
{
    Command {
        user: 0,
        drive: 0,
        names_drive: false,
        name: Name8([0; 8]),
        password: [0; 8],
    }
}

/// No message, and so no tail.
#[tactic(auto, unfolding(mpm_command::specs::Commands::tail_in, mpm_command::specs::Commands::text_of))]
fn no_message() -> [u8; 130]
    ensures { tail_in result ≡ [] }
{
    [0; 130]
}

/// The function that reserves memory: any segment, or one that lies at page 0.
fn request(relocatable: bool) -> u8
    ensures { result ≡ request_for relocatable }
{
    if relocatable {
        functions::RELOCATABLE_MEMORY_REQUEST
    } else {
        functions::ABSOLUTE_MEMORY_REQUEST
    }
}

/// Whether the descriptor that was answered is one of a segment of so many pages at least.
fn is_segment_of(pages: u8, reply: &Reply) -> bool
    ensures { IsSuch (is_segment_with pages reply.now) (λ is. OnTrue is (IsSegmentOf pages reply.now)) result }
{
    let [base, size, seg] = [byte_at(reply, 0), byte_at(reply, 1), byte_at(reply, 3)];
    seg < 16 && pages <= size && u16::from(base) + u16::from(size) <= 192
}

/// The records that a call read, sixteen at most.
fn records_in(reply: &Reply) -> &[u8]
    ensures { IsBytes (records_of reply.now) 2048 result.now }
{
    let bytes = reply.placed();
    if bytes.len() <= MOST {
        bytes
    } else {
        &bytes[..MOST]
    }
}

/// One of the bytes that were answered, 0 after the last.
fn byte_at(reply: &Reply, place: usize) -> u8
    ensures { result ≡ byte_of_reply reply.now place }
{
    let bytes = reply.placed();
    if place < bytes.len() { bytes[place] } else { 0 }
}
