//! Messages between processes.
use mpm_base::functions;
use mpm_kernel_scenes::Completion::{Done, Held};
use mpm_kernel_scenes::Line::{
    Begin, Completes, CompletesNone, Delete, Delivers, End, Holds, Make, Name, Next, Pass, Places,
};
use mpm_kernel_scenes::{BLOCK, kernel_with_system_queue, play, play_on};
use std::test::Fail;

#[test]
fn a_read_lets_the_message_of_a_waiting_writer_in(rt: HostRuntime) -> Result<(), Fail> {
    play(
        rt.alloc(),
        &[
            Begin(200),
            Make(b"QUEUE   ", 1, 2, Done(0)),
            Pass(functions::WRITE_QUEUE, 1, 0x41, Done(0)),
            Pass(functions::CONDITIONAL_WRITE_QUEUE, 1, 0x42, Done(0)),
            Pass(functions::CONDITIONAL_WRITE_QUEUE, 1, 0x44, Done(0x00FF)),
            Pass(functions::WRITE_QUEUE, 1, 0x43, Held),
            Next(Some(1)),
            Pass(functions::CONDITIONAL_READ_QUEUE, 1, 0, Done(0)),
            Places(0x0300, &[0x41]),
            Completes(0),
            Pass(functions::READ_QUEUE, 1, 0, Done(0)),
            Places(0x0300, &[0x42]),
            CompletesNone,
            Pass(functions::CONDITIONAL_READ_QUEUE, 1, 0, Done(0)),
            Places(0x0300, &[0x43]),
            CompletesNone,
            Pass(functions::CONDITIONAL_READ_QUEUE, 1, 0, Done(0x00FF)),
            Places(0, &[]),
            CompletesNone,
        ],
    )
}

#[test]
fn a_message_goes_to_a_waiting_reader(rt: HostRuntime) -> Result<(), Fail> {
    play(
        rt.alloc(),
        &[
            Begin(201),
            Make(b"QUEUE   ", 1, 1, Done(0)),
            Pass(functions::READ_QUEUE, 1, 0, Held),
            Next(Some(1)),
            Pass(functions::WRITE_QUEUE, 1, 0x55, Done(0)),
            Places(0, &[]),
            Delivers(0, 0x55),
        ],
    )
}

#[test]
fn queues_that_cannot_be_made_and_pointers_that_name_none(rt: HostRuntime) -> Result<(), Fail> {
    play(
        rt.alloc(),
        &[
            Make(b"QUEUE   ", 1024, 3, Done(0x00FF)),
            Make(b"QUEUE   ", 1, 0, Done(0x00FF)),
            Make(b"QUEUE   ", 1024, 2, Done(0)),
            Make(b"QUEUE   ", 1, 1, Done(0x00FF)),
            Delete(b"QUEUE   ", Done(0)),
            Make(b"QUEUE   ", 1, 1, Done(0)),
            Pass(functions::READ_QUEUE, 0, 0, Done(0x00FF)),
            Pass(functions::READ_QUEUE, 33, 0, Done(0x00FF)),
            Pass(functions::CONDITIONAL_READ_QUEUE, 0, 0, Done(0x00FF)),
            Pass(functions::CONDITIONAL_READ_QUEUE, 33, 0, Done(0x00FF)),
            Pass(functions::WRITE_QUEUE, 0, 0, Done(0x00FF)),
            Pass(functions::WRITE_QUEUE, 33, 0, Done(0x00FF)),
            Pass(functions::CONDITIONAL_WRITE_QUEUE, 0, 0, Done(0x00FF)),
            Pass(functions::CONDITIONAL_WRITE_QUEUE, 33, 0, Done(0x00FF)),
            Pass(functions::CONDITIONAL_WRITE_QUEUE, 2, 0, Done(0x00FF)),
            Pass(functions::CONDITIONAL_WRITE_QUEUE, 1, 0, Done(0)),
        ],
    )
}

#[test]
fn a_queue_at_which_a_process_waits_is_not_deleted(rt: HostRuntime) -> Result<(), Fail> {
    play(
        rt.alloc(),
        &[
            Begin(200),
            Make(b"QUEUE   ", 1, 1, Done(0)),
            Pass(functions::READ_QUEUE, 1, 0, Held),
            Next(Some(1)),
            Delete(b"QUEUE   ", Done(0x00FF)),
            End(0),
            Delete(b"QUEUE   ", Done(0)),
            Delete(b"QUEUE   ", Done(0x00FF)),
            Name(functions::OPEN_QUEUE, b"QUEUE   ", Done(0x00FF)),
            Places(0, &[]),
        ],
    )
}

#[test]
fn who_reads_the_message_of_a_mutual_exclusion_queue_holds_it(rt: HostRuntime) -> Result<(), Fail> {
    play(
        rt.alloc(),
        &[
            Make(b"MXtest  ", 0, 1, Done(0)),
            Pass(functions::WRITE_QUEUE, 1, 0, Done(0)),
            Holds(0, false),
            Pass(functions::READ_QUEUE, 1, 0, Done(0)),
            Holds(0, true),
            Delete(b"MXtest  ", Done(0x00FF)),
            Pass(functions::CONDITIONAL_WRITE_QUEUE, 1, 0, Done(0)),
            Holds(0, false),
        ],
    )
}

#[test]
fn a_queue_of_the_system_is_there_from_the_start_and_stays(rt: HostRuntime) -> Result<(), Fail> {
    let mut kernel = kernel_with_system_queue(rt.alloc())?;
    play_on(
        &mut kernel,
        &[
            Name(functions::OPEN_QUEUE, b"CliQ    ", Done(0)),
            Places(BLOCK, &[1, 0]),
            Delete(b"CliQ    ", Done(0x00FF)),
            Make(b"QUEUE   ", 1, 1, Done(0)),
            Delete(b"QUEUE   ", Done(0)),
            Pass(functions::WRITE_QUEUE, 1, 0, Done(0)),
            Name(functions::OPEN_QUEUE, b"CliQ    ", Done(0)),
            Places(BLOCK, &[1, 0]),
        ],
    )
}
