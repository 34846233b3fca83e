ghost use Rattle.std.specs.Prelude.{◌≡◌};
ghost use Rattle.mpm_residents.specs.Natives.{native_act, native_call, native_took, interprets as is_interpreter, IsNativeAct};
ghost use Rattle.mpm_residents.specs.Interpreters.{ActsBy};

use crate::{Act, Cli, Tmp};
use mpm_base::{Call, Reply};
use mpm_sched::Sched;
use mpm_spool::Spool;

/// A process of the system.
#[derive(Drop)]
pub enum Native {
    /// A terminal message processor.
    Tmp { tmp: Tmp },
    /// The command line interpreter.
    Cli { cli: Cli },
    /// The print spooler.
    Spool { spool: Spool },
    /// The scheduler of commands.
    Sched { sched: Sched },
}

impl Native {
    /// What it does next. It fills in the call that it makes, or the bytes that it hands over; a call that is held, or has to be
    /// made again, is filled in again.
    pub fn next(&mut self, call: &mut Call) -> Act
        ensures stays { self.new ≡ self.old }
        ensures acts { ActsBy native_call native_act (IsNativeAct self.old) self.old call.new result }
    {
        match self {
            Native::Tmp { tmp } => {
                tmp.next(call);
                Act::Ask
            }
            Native::Cli { cli } => cli.next(call),
            Native::Spool { spool } => {
                spool.next(call);
                Act::Ask
            }
            Native::Sched { sched } => {
                sched.next(call);
                Act::Ask
            }
        }
    }

    /// Whether it is the command line interpreter.
    pub fn interprets(&self) -> bool
        ensures { result ≡ is_interpreter self.now }
    {
        match self {
            Native::Cli { .. } => true,
            Native::Tmp { .. } => false,
            Native::Spool { .. } => false,
            Native::Sched { .. } => false,
        }
    }

    /// The number of the function that it calls next, 0 where it hands something over.
    pub fn function(&self) -> u8
        ensures { result ≡ (native_call self.now).function }
    {
        match self {
            Native::Tmp { tmp } => tmp.function(),
            Native::Cli { cli } => cli.function(),
            Native::Spool { spool } => spool.function(),
            Native::Sched { sched } => sched.function(),
        }
    }

    /// It takes the answer to that.
    pub fn took(&mut self, reply: &Reply)
        ensures { self.new ≡ native_took self.old reply.now }
    {
        match self {
            Native::Tmp { tmp } => tmp.took(reply),
            Native::Cli { cli } => cli.took(reply),
            Native::Spool { spool } => spool.took(reply),
            Native::Sched { sched } => sched.took(reply),
        }
    }
}
