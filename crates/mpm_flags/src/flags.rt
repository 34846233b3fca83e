ghost use Rattle.std.specs.Prelude.{◌≡◌, ◌<◌, map};
ghost use Rattle.mpm_flags.specs.States.{without_waiter};

use mpm_base::Pid;
use std::marker::Model;

/// A flag.
#[derive(Clone, Copy)]
pub(crate) enum Flag {
    Clear,
    Set,
    /// Clear, and this process waits for it.
    Waits(Pid),
}

/// What became of a process that waits for a flag.
#[derive(Clone, Copy, Debug, PartialEq, Eq)]
pub enum FlagWait {
    /// The flag was set, and is clear now.
    Passed,
    /// The process waits from now on.
    Waits,
    /// Another process waits; nothing changed.
    Underrun,
}

/// What became of a flag that is set.
#[derive(Clone, Copy, Debug, PartialEq, Eq)]
pub enum FlagSet {
    /// It is set now.
    Set,
    /// A process waited for it and does no more; the flag stays clear.
    Woke { p: Pid },
    /// It was set already; nothing changed.
    Overrun,
}

/// The 32 flags.
#[derive(Drop)]
pub struct Flags {
    flags: [Flag; 32],
}

impl Model for Flags {
    ghost use Rattle.std.specs.Prelude.{◌≡◌, List, length};
    ghost use Rattle.mpm_flags.specs.declared.flags.Flag.{Flag};

    ghost Value = { List Flag };

    ghost view = { λ f. f.flags };

    ghost invariant = { λ f. length f.flags ≡ 32 };
}

impl Flags {
    ghost use Rattle.mpm_flags.specs.States.{no_flags, flag_at, with_flag, waited_for, wait_answer, after_set, set_answer, flags_without_waiter};

    /// All flags, clear.
    #[tactic(auto, unfolding(crate::specs::States::no_flags))]
    pub fn new() -> Flags
        ensures { result ≡ no_flags }
    {
        Flags {
            flags: [Flag::Clear; 32],
        }
    }

    /// A process waits for a flag. (MP/M II Programmer's Guide, "Function 132: Flag Wait".)
    pub fn wait(&mut self, p: Pid, flag: u8) -> FlagWait
        requires { flag < 32 }
        ensures flags { self.new ≡ with_flag self.old flag (waited_for p (flag_at self.old flag)) }
        ensures answer { result ≡ wait_answer p (flag_at self.old flag) }
    {
        let place = usize::from(flag);
        let state = self.flags[place];
        match state {
            Flag::Clear => {
                self.flags[place] = Flag::Waits(p);
                FlagWait::Waits
            }
            Flag::Set => {
                self.flags[place] = Flag::Clear;
                FlagWait::Passed
            }
            Flag::Waits(other) if other.0 == p.0 => FlagWait::Waits,
            Flag::Waits(_) => FlagWait::Underrun,
        }
    }

    /// A flag is set. (MP/M II Programmer's Guide, "Function 133: Flag Set".)
    pub fn set(&mut self, flag: u8) -> FlagSet
        requires { flag < 32 }
        ensures flags { self.new ≡ with_flag self.old flag (after_set (flag_at self.old flag)) }
        ensures answer { result ≡ set_answer (flag_at self.old flag) }
    {
        let place = usize::from(flag);
        let state = self.flags[place];
        match state {
            Flag::Clear => {
                self.flags[place] = Flag::Set;
                FlagSet::Set
            }
            Flag::Set => FlagSet::Overrun,
            Flag::Waits(p) => {
                self.flags[place] = Flag::Clear;
                FlagSet::Woke { p }
            }
        }
    }

    /// Drops the wait of a process, if it waits.
    #[tactic(auto, unfolding(crate::specs::States::flags_without_waiter))]
    pub fn leave(&mut self, p: Pid)
        ensures { self.new ≡ flags_without_waiter self.old p }
    {
        leave_each(&mut self.flags, p);
    }
}

/// Drops the wait of a process for each of some flags.
fn leave_each(flags: &mut [Flag], p: Pid)
    ensures { flags.new ≡ map (without_waiter p) flags.old }
{
    for flag in flags.iter_mut() {
        flag.leave(p);
    }
}

impl Flag {
    ghost use Rattle.std.specs.Prelude.{◌≡◌};
    ghost use Rattle.mpm_flags.specs.States.{without_waiter};

    /// Drops the wait of a process, if it is that one's.
    fn leave(&mut self, p: Pid)
        ensures { self.new ≡ without_waiter p self.old }
    {
        let state = *self;
        match state {
            Flag::Waits(other) if other.0 == p.0 => *self = Flag::Clear,
            _ => {}
        }
    }
}
