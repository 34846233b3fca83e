ghost use Rattle.std.specs.Prelude.{◌≡◌, ◌+◌, ◌<◌, None, IfSome};
ghost use Rattle.mpm_service.specs.Places.{served_without};

use crate::waiting::Waiting;
use mpm_base::Pid;
use std::marker::Model;

/// What a step of the disk is.
#[derive(Clone, Copy, Debug, PartialEq, Eq)]
pub enum Turn {
    /// No call is in service, and none waits.
    Idle,
    /// A step of a turn that isn't its last passes.
    Passing,
    /// The last step of a turn: its work is to be done. The `last` turn ends the service.
    Work { p: Pid, last: bool },
    /// The first call that waited enters service; `begin` is to tell how many turns it takes.
    Starts { p: Pid },
}

/// A call in service: whose it is, how many turns are left to it, and how many steps of this turn have passed.
#[derive(Clone, Copy)]
pub(crate) struct Served {
    p: Pid,
    left: u32,
    passed: u32,
}

/// The file calls that wait for the disk, and the one that it serves, in turns.
///
/// Contracts see how many steps a turn has, who waits, in ready order, and who is served, with the turns that are left and
/// the steps of this turn that have passed.
#[derive(Drop)]
pub struct Service {
    turn_steps: u32,
    waiting: Waiting,
    served: Option<Served>,
}

impl Model for Service {
    ghost use Rattle.mpm_service.specs.Disk.{DiskService, IsSoundService};

    ghost Value = { DiskService };

    ghost view = { λ s. record { turn_steps = s.turn_steps; waiting = s.waiting; served = s.served } };

    ghost invariant = { λ s. IsSoundService (record { turn_steps = s.turn_steps; waiting = s.waiting; served = s.served }) };
}

impl Service {
    ghost use Rattle.mpm_service.specs.Disk.{turn_answer, HasBegun, MayEnter, Becomes, Turns, LeavesDisk};
    ghost use Rattle.mpm_service.specs.Places.{without_call};
    ghost use Rattle.mpm_service.specs.Calling.{MakesService, EntersService, TurnsService, MayBeginTurns, BeginsTurns, TellsQuiet, PassesQuietly, FinishesService, TellsServed};

    /// Nobody waits or is served. A turn has `disk_turn` steps; where that is 0 no call may wait.
    #[tactic(auto, unfolding(crate::specs::Disk::no_service))]
    pub fn new(disk_turn: u32) -> Service
        ensures { MakesService disk_turn result }
    {
        Service {
            turn_steps: disk_turn,
            waiting: Waiting::new(),
            served: None,
        }
    }

    /// A process's call waits from now on, after all of equal or better priority (0 is best, 255 worst).
    #[tactic(auto, using(crate::proofs::SoundLaws::stays_begun), unfolding(crate::specs::Disk::entered))]
    pub fn enter(&mut self, p: Pid, priority: u8)
        requires { MayEnter p self.old }
        ensures { EntersService p priority self.old self.new }
    {
        self.waiting.put(p, priority);
    }

    /// A step of the disk. After the `last` turn of a call it is made once more, so that the next call enters service.
    ///
    /// It asks that `begin` followed each `Starts`.
    #[tactic(auto, using(crate::proofs::SoundLaws::has_begun, crate::proofs::SoundLaws::after_answer, crate::proofs::SoundLaws::last_ends), unfolding(crate::specs::Disk::turned, crate::specs::Disk::turn_answer))]
    pub fn turn(&mut self) -> Turn
        requires begun { HasBegun self.old }
        ensures { TurnsService self.old self.new result }
    {
        match self.served {
            Some(call) => {
                let turn = call.answer(self.turn_steps);
                self.served = call.pass(self.turn_steps);
                turn
            }
            None => self.start(),
        }
    }

    /// The first call that waits enters service, if one does.
    #[tactic(auto, unfolding(crate::specs::Disk::turned, crate::specs::Disk::turn_answer))]
    fn start(&mut self) -> Turn
        requires { self.old.served ≡ None }
        ensures { Turns self.old self.new result }
    {
        let Some(p) = self.waiting.first() else {
            return Turn::Idle;
        };
        let _ = self.waiting.remove(p);
        self.served = Some(Served {
            p,
            left: 0,
            passed: 0,
        });
        Turn::Starts { p }
    }

    /// The call that has just entered service takes so many turns, of which the first begins with the next step.
    #[tactic(auto, unfolding(crate::specs::Disk::begun))]
    pub fn begin(&mut self, turns: u32)
        requires { MayBeginTurns turns self.old }
        ensures { BeginsTurns turns self.old self.new }
    {
        if let Some(call) = self.served {
            self.served = Some(Served {
                p: call.p,
                left: turns,
                passed: 0,
            });
        }
    }

    /// Drops the call of a process that waits; false, and nothing changes, exactly where it doesn't wait: the one that is served
    /// doesn't.
    pub fn leave(&mut self, p: Pid) -> bool
        ensures { LeavesDisk p self.old self.new result }
    {
        self.waiting.remove(p)
    }

    /// Drops the call of a process, whether it waits or is in service.
    #[tactic(auto, unfolding(crate::specs::Places::without_call))]
    pub fn drop_call(&mut self, p: Pid)
        ensures { Becomes (without_call self.old p) self.old self.new }
    {
        let _waited = self.waiting.remove(p);
        self.served = without(self.served, p);
    }

    /// What the next step of the disk is, as the service now is.
    #[tactic(auto, unfolding(crate::specs::Disk::turn_answer))]
    pub fn ahead(&self) -> Turn
        ensures { result ≡ turn_answer self.now }
    {
        match self.served {
            Some(call) => call.answer(self.turn_steps),
            None => match self.waiting.first() {
                Some(p) => Turn::Starts { p },
                None => Turn::Idle,
            },
        }
    }

    /// How many steps of the disk only pass before one that is more; None where the disk has no call, so that any number does.
    #[tactic(auto, unfolding(crate::specs::Ahead::quiet_steps))]
    pub fn quiet(&self) -> Option<u32>
        ensures { TellsQuiet self.now result }
    {
        match self.served {
            Some(call) => Some(self.turn_steps - 1 - call.passed),
            None => match self.waiting.first() {
                Some(_) => Some(0),
                None => None,
            },
        }
    }

    /// So many steps of the disk at once, that only pass.
    #[tactic(auto, using(crate::proofs::AheadLaws::many_pass), unfolding(crate::specs::Ahead::passed_by))]
    pub fn pass(&mut self, steps: u32)
        requires few { IfSome self.old.served (λ call. call.passed + steps < self.old.turn_steps) }
        ensures { PassesQuietly steps self.old self.new }
    {
        if let Some(call) = self.served {
            self.served = Some(Served {
                p: call.p,
                left: call.left,
                passed: call.passed + steps,
            });
        }
    }

    /// The service of the call that is served ends without further steps: how many turns were left to it.
    #[tactic(auto, unfolding(crate::specs::Ahead::unserved, crate::specs::Ahead::turns_left))]
    pub fn finish(&mut self) -> u32
        ensures { FinishesService self.old self.new result }
    {
        let left = match self.served {
            Some(call) => call.left,
            None => 0,
        };
        self.served = None;
        left
    }

    /// How many steps a turn has; where it is 0 no call may wait.
    pub fn turn_steps(&self) -> u32
        ensures { result ≡ self.now.turn_steps }
    {
        self.turn_steps
    }

    /// The process whose call is in service, none exactly where none is.
    #[tactic(auto, unfolding(crate::specs::Disk::served_process))]
    pub fn serving(&self) -> Option<Pid>
        ensures { TellsServed self.now result }
    {
        self.waiting.recall_list();
        match self.served {
            Some(call) => Some(call.p),
            None => None,
        }
    }
}

/// The call in service, unless it is that of a process.
fn without(served: Option<Served>, p: Pid) -> Option<Served>
    ensures { result ≡ served_without p served }
{
    match served {
        Some(call) if call.p == p => None,
        _ => served,
    }
}

impl Served {
    ghost use Rattle.mpm_service.specs.Disk.{is_last_step, after_step, step_answer};
    ghost use Rattle.mpm_service.specs.Calling.{HasTurnsLeft};

    /// Whether one more step is the last of its turn.
    fn is_last_step(&self, turn_steps: u32) -> bool
        requires { self.now.passed < turn_steps }
        ensures { result ≡ is_last_step turn_steps self.now }
    {
        self.passed + 1 == turn_steps
    }

    /// The call after one more step, none where that was the last of its last turn.
    #[tactic(auto, unfolding(crate::specs::Disk::after_step))]
    fn pass(&self, turn_steps: u32) -> Option<Served>
        requires { HasTurnsLeft turn_steps self.now }
        ensures { result ≡ after_step turn_steps self.now }
    {
        if !self.is_last_step(turn_steps) {
            return Some(Served {
                p: self.p,
                left: self.left,
                passed: self.passed + 1,
            });
        }
        if self.left == 1 {
            return None;
        }
        Some(Served {
            p: self.p,
            left: self.left - 1,
            passed: 0,
        })
    }

    /// What one more step is.
    #[tactic(auto, unfolding(crate::specs::Disk::step_answer))]
    fn answer(&self, turn_steps: u32) -> Turn
        requires { self.now.passed < turn_steps }
        ensures { result ≡ step_answer turn_steps self.now }
    {
        if !self.is_last_step(turn_steps) {
            return Turn::Passing;
        }
        Turn::Work {
            p: self.p,
            last: self.left == 1,
        }
    }
}
