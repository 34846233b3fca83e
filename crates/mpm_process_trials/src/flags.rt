//! Flags: who sets them, and who waits for them.
use mpm_base::Pid;
use mpm_flags::{FlagSet, FlagWait, Flags};
use std::test::Fail;

/// Whether a flag is set once and passed once.
fn is_passed_once(flags: &mut Flags) -> bool {
    flags.set(5) == FlagSet::Set
        && flags.set(5) == FlagSet::Overrun
        && flags.wait(Pid(1), 5) == FlagWait::Passed
        && flags.wait(Pid(1), 5) == FlagWait::Waits
}

/// Whether one process waits for a flag.
fn one_waits(flags: &mut Flags) -> bool {
    flags.wait(Pid(3), 31) == FlagWait::Waits
        && flags.wait(Pid(4), 31) == FlagWait::Underrun
        && flags.set(31) == FlagSet::Woke { p: Pid(3) }
        && flags.set(31) == FlagSet::Set
}

/// Whether a process that leaves waits no more.
fn waits_no_more(flags: &mut Flags) -> bool {
    let both = flags.wait(Pid(3), 4) == FlagWait::Waits && flags.wait(Pid(2), 6) == FlagWait::Waits;
    flags.leave(Pid(3));
    both && flags.set(4) == FlagSet::Set && flags.set(6) == FlagSet::Woke { p: Pid(2) }
}

#[test]
fn a_flag_is_set_and_passed_by_one_process(rt: HostRuntime) -> Result<(), Fail> {
    let mut flags = Flags::new();
    let once = is_passed_once(&mut flags);
    let one = one_waits(&mut flags);
    let gone = waits_no_more(&mut flags);
    assert!(rt; once && one && gone);
    Ok(())
}
