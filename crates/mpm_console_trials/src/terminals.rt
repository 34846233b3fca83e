//! Terminal message processors, line by line, and who acts in a slot.
use mpm_base::{Call, Pid, Reply, functions};
use mpm_residents::{Act, Cli, Native, Residents, Tmp};
use std::test::Fail;

/// A processor, and the call and the reply with which it is driven.
#[derive(Drop)]
struct Terminal {
    tmp: Tmp,
    call: Call,
    reply: Reply,
}

/// The processor of a console, as it begins.
fn begin(console: u8) -> Terminal {
    Terminal {
        tmp: Tmp::new(console),
        call: Call::new(),
        reply: Reply::new(),
    }
}

/// Whether its next call is this one, which is then answered with a value.
fn calls(terminal: &mut Terminal, function: u8, word: u16, bytes: &[u8], value: u16) -> bool {
    terminal.tmp.next(&mut terminal.call);
    let expected = terminal.call.function == function
        && terminal.call.word == word
        && terminal.call.taken() == bytes;
    terminal.reply.answer(value);
    terminal.tmp.took(&terminal.reply);
    expected
}

/// Whether it reads a line next, which is then answered; at most 127 bytes.
fn reads(terminal: &mut Terminal, line: &[u8]) -> bool {
    terminal.tmp.next(&mut terminal.call);
    let expected = terminal.call.function == functions::READ_CONSOLE_BUFFER
        && terminal.call.taken() == b"\x7f".as_slice();
    let size = line.len().min(127);
    let mut bytes = [0; 128];
    bytes[0] = size as u8;
    bytes[1..1 + size].copy_from_slice(&line[..size]);
    terminal.reply.answer_with(0, 0x0081, &bytes[..1 + size]);
    terminal.tmp.took(&terminal.reply);
    expected
}

/// Whether it attaches its console, writes a prompt, reads a line, and goes to a new line.
fn takes(terminal: &mut Terminal, prompt: &[u8], line: &[u8]) -> bool {
    calls(terminal, functions::ATTACH_CONSOLE, 0, b"", 0)
        && calls(terminal, functions::PRINT_STRING, 0, prompt, 0)
        && reads(terminal, line)
        && calls(terminal, functions::CONSOLE_OUTPUT, 0x0A, b"", 0)
}

#[test]
fn an_empty_line_gives_the_prompt_again(rt: HostRuntime) {
    let mut terminal = begin(0);
    assert!(rt; takes(&mut terminal, b"0A>", b""));
    assert!(rt; takes(&mut terminal, b"0A>", b"   "));
    assert!(rt; calls(&mut terminal, functions::ATTACH_CONSOLE, 0, b"", 0));
}

#[test]
fn a_line_is_sent_without_the_spaces_around_it(rt: HostRuntime) {
    let mut terminal = begin(2);
    assert!(rt; takes(&mut terminal, b"0A>", b" dir *.com  "));
    assert!(rt;
        calls(
            &mut terminal,
            functions::SEND_CLI_COMMAND,
            0,
            b"\x00\x02dir *.com",
            0
        )
    );
    assert!(rt; takes(&mut terminal, b"0A>", b"a\x00b"));
    assert!(rt;
        calls(
            &mut terminal,
            functions::SEND_CLI_COMMAND,
            0,
            b"\x00\x02a",
            0x00FF
        )
    );
    assert!(rt; takes(&mut terminal, b"0A>", b"\tdir"));
    assert!(rt;
        calls(
            &mut terminal,
            functions::SEND_CLI_COMMAND,
            0,
            b"\x00\x02\tdir",
            0
        )
    );
    assert!(rt; calls(&mut terminal, functions::ATTACH_CONSOLE, 0, b"", 0));
}

#[test]
fn a_drive_is_selected_by_its_letter(rt: HostRuntime) {
    let mut terminal = begin(0);
    assert!(rt; takes(&mut terminal, b"0A>", b" b: "));
    assert!(rt; calls(&mut terminal, functions::SELECT_DISK, 1, b"", 0));
    assert!(rt; takes(&mut terminal, b"0B>", b"P:"));
    assert!(rt; calls(&mut terminal, functions::SELECT_DISK, 15, b"", 0));
    assert!(rt; takes(&mut terminal, b"0P>", b"dir"));
    assert!(rt;
        calls(
            &mut terminal,
            functions::SEND_CLI_COMMAND,
            0,
            b"\x0f\x00dir",
            0
        )
    );
    assert!(rt; calls(&mut terminal, functions::ATTACH_CONSOLE, 0, b"", 0));
}

#[test]
fn a_refused_drive_is_told(rt: HostRuntime) {
    let mut terminal = begin(0);
    assert!(rt; takes(&mut terminal, b"0A>", b"q:"));
    assert!(rt; calls(&mut terminal, functions::SELECT_DISK, 16, b"", 0x04FF));
    assert!(rt;
        calls(
            &mut terminal,
            functions::PRINT_STRING,
            0,
            b"No drive\r\n",
            0
        )
    );
    assert!(rt; takes(&mut terminal, b"0A>", b"b:c"));
    assert!(rt;
        calls(
            &mut terminal,
            functions::SEND_CLI_COMMAND,
            0,
            b"\x00\x00b:c",
            0
        )
    );
    assert!(rt; takes(&mut terminal, b"0A>", b"1:"));
    assert!(rt;
        calls(
            &mut terminal,
            functions::SEND_CLI_COMMAND,
            0,
            b"\x00\x001:",
            0
        )
    );
}

#[test]
fn a_user_is_named_by_number(rt: HostRuntime) {
    let mut terminal = begin(1);
    assert!(rt; takes(&mut terminal, b"0A>", b"user 3"));
    assert!(rt; calls(&mut terminal, functions::SET_GET_USER_CODE, 3, b"", 0));
    assert!(rt; takes(&mut terminal, b"3A>", b" UsEr   15 "));
    assert!(rt; calls(&mut terminal, functions::SET_GET_USER_CODE, 15, b"", 0));
    assert!(rt; takes(&mut terminal, b"15A>", b"p:"));
    assert!(rt; calls(&mut terminal, functions::SELECT_DISK, 15, b"", 0));
    assert!(rt; takes(&mut terminal, b"15P>", b"stat"));
    assert!(rt;
        calls(
            &mut terminal,
            functions::SEND_CLI_COMMAND,
            0,
            b"\xff\x01stat",
            0
        )
    );
    assert!(rt; takes(&mut terminal, b"15P>", b"USER 0"));
    assert!(rt; calls(&mut terminal, functions::SET_GET_USER_CODE, 0, b"", 0));
    assert!(rt; takes(&mut terminal, b"0P>", b""));
}

#[test]
fn what_names_no_user_is_a_command(rt: HostRuntime) {
    let mut terminal = begin(0);
    assert!(rt; takes(&mut terminal, b"0A>", b"USER 16"));
    assert!(rt;
        calls(
            &mut terminal,
            functions::SEND_CLI_COMMAND,
            0,
            b"\x00\x00USER 16",
            0
        )
    );
    assert!(rt; takes(&mut terminal, b"0A>", b"user 03"));
    assert!(rt;
        calls(
            &mut terminal,
            functions::SEND_CLI_COMMAND,
            0,
            b"\x00\x00user 03",
            0
        )
    );
    assert!(rt; takes(&mut terminal, b"0A>", b"user3"));
    assert!(rt;
        calls(
            &mut terminal,
            functions::SEND_CLI_COMMAND,
            0,
            b"\x00\x00user3",
            0
        )
    );
    assert!(rt; takes(&mut terminal, b"0A>", b"user "));
    assert!(rt;
        calls(
            &mut terminal,
            functions::SEND_CLI_COMMAND,
            0,
            b"\x00\x00user",
            0
        )
    );
    assert!(rt; takes(&mut terminal, b"0A>", b"users 3"));
    assert!(rt;
        calls(
            &mut terminal,
            functions::SEND_CLI_COMMAND,
            0,
            b"\x00\x00users 3",
            0
        )
    );
    assert!(rt; takes(&mut terminal, b"0A>", b"user 3 4"));
    assert!(rt;
        calls(
            &mut terminal,
            functions::SEND_CLI_COMMAND,
            0,
            b"\x00\x00user 3 4",
            0
        )
    );
}

#[test]
fn a_line_may_have_127_bytes(rt: HostRuntime) {
    let mut terminal = begin(7);
    assert!(rt; takes(&mut terminal, b"0A>", &[b'a'; 127]));
    terminal.tmp.next(&mut terminal.call);
    assert_eq!(rt; terminal.call.taken().len(), 129);
    assert_eq!(rt; terminal.call.byte(1), 7);
    assert_eq!(rt; terminal.call.byte(128), b'a');
}

/// Whether a process makes a call of this function next, and says so beforehand.
fn asks(native: &mut Native, call: &mut Call, function: u8) -> bool {
    let told = native.function() == function;
    match native.next(call) {
        Act::Ask => told && call.function == function,
        _ => false,
    }
}

/// Whether a process gives a console back next, and says beforehand that it makes no call.
fn gives(native: &mut Native, call: &mut Call, given: u8) -> bool {
    let told = native.function() == 0;
    match native.next(call) {
        Act::GiveConsole { console } => told && console == given,
        _ => false,
    }
}

#[test]
fn a_call_that_is_held_is_made_again(rt: HostRuntime) {
    let mut native = Native::Tmp { tmp: Tmp::new(0) };
    let mut call = Call::new();
    let mut reply = Reply::new();
    assert!(rt; asks(&mut native, &mut call, functions::ATTACH_CONSOLE));
    assert!(rt; asks(&mut native, &mut call, functions::ATTACH_CONSOLE));
    reply.answer(0);
    native.took(&reply);
    assert!(rt; asks(&mut native, &mut call, functions::PRINT_STRING));
}

#[test]
fn an_interpreter_tells_of_a_command_without_a_name_and_gives_the_console_back(rt: HostRuntime) {
    let mut native = Native::Cli { cli: Cli::new(2) };
    let mut call = Call::new();
    let mut reply = Reply::new();
    assert!(rt; asks(&mut native, &mut call, functions::READ_QUEUE));
    reply.answer_with(0, 0, b"\x00\x01=x");
    native.took(&reply);
    assert!(rt; asks(&mut native, &mut call, functions::PRINT_STRING));
    assert_eq!(rt; call.word, 1);
    assert!(rt; call.taken() == b"Bad load\r\n".as_slice());
    reply.answer(0);
    native.took(&reply);
    assert!(rt; gives(&mut native, &mut call, 1));
    native.took(&reply);
    assert!(rt; asks(&mut native, &mut call, functions::READ_QUEUE));
}

/// The function that the resident of a slot calls next, 0 where none acts there.
fn next_function(residents: &mut Residents, p: Pid) -> u8 {
    let mut call = Call::new();
    if residents.has(p) {
        let _ = residents.ask(p, &mut call);
    }
    call.function
}

/// The resident of a slot, if one acts there, takes an answer.
fn answer(residents: &mut Residents, p: Pid) {
    if residents.has(p) {
        residents.take(p, &Reply::new());
    }
}

#[test]
fn each_resident_goes_on_by_its_own_answers(rt: HostRuntime) -> Result<(), Fail> {
    let mut residents = Residents::none(rt.alloc())?;
    residents.add_interpreter(2);
    residents.add_terminal(0);
    residents.add_terminal(1);
    answer(&mut residents, Pid(2));
    assert_eq!(rt;
        next_function(&mut residents, Pid(0)),
        functions::READ_QUEUE
    );
    assert_eq!(rt;
        next_function(&mut residents, Pid(1)),
        functions::ATTACH_CONSOLE
    );
    assert_eq!(rt;
        next_function(&mut residents, Pid(2)),
        functions::PRINT_STRING
    );
    assert_eq!(rt; next_function(&mut residents, Pid(3)), 0);
    Ok(())
}
