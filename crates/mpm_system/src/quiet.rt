ghost use Rattle.std.specs.Prelude.{◌≡◌, None, IfSome, ◌+◌, ◌≤◌, ◌<◌, ℕ};
ghost use Rattle.mpm_script.specs.declared.line.TheConstants.{GREATEST_STEP};

use crate::system::System;
use mpm_base::Pid;
use mpm_script::GREATEST_STEP;

impl System {
    ghost use Rattle.mpm_interrupts.specs.Interrupts.{due};
    ghost use Rattle.mpm_system.specs.Idling.{later, TellsAlone};
    ghost use Rattle.mpm_system.specs.Asking.{TellsDiskQuiet, MayPassSteps};
    ghost use Rattle.mpm_system.specs.Quiet.{IsQuietUntil, IsQuietFor, RunsFirst, TellsIdle};

    /// The running process, where it is the first of the ready list, so that it runs on after each instruction.
    pub fn runner(&self) -> Option<Pid>
        ensures { IfSome result (λ p. RunsFirst p self.now) }
    {
        let p = self.kernel.running()?;
        let first = self.kernel.first_ready()?;
        if first.0 == p.0 { Some(p) } else { None }
    }

    /// The last of the steps to come, as far as a run goes, up to which no interrupt is due and the disk's steps only pass.
    #[inline(always)]
    pub fn last_quiet(&self) -> u64
        requires { self.now.steps ≤ GREATEST_STEP }
        ensures { IsQuietUntil result self.now }
    {
        self.steps + self.quiet_for(u64::from(GREATEST_STEP))
    }

    /// So many steps, at most, in which no interrupt is due and the disk's only pass.
    #[inline(always)]
    #[tactic(auto, using(crate::proofs::IdlingLaws::fewer_can))]
    pub fn quiet_for(&self, most: u64) -> u64
        requires { most ≤ GREATEST_STEP }
        ensures { IsQuietFor most result self.now }
    {
        self.disk_quiet(most.min(self.quiet()))
    }

    /// So many steps at least in which no interrupt is due.
    fn quiet(&self) -> u64
        ensures { (step : ℕ) → step ≤ self.now.steps + result → self.now.steps < step → due step self.now.interrupts ≡ None }
    {
        self.interrupts
            .next_step()
            .saturating_sub(self.steps)
            .saturating_sub(1)
    }

    /// So many of these steps, at most, in which the disk's only pass.
    fn disk_quiet(&self, most: u64) -> u64
        ensures { TellsDiskQuiet most self.now.kernel.disk result }
    {
        match self.kernel.disk().quiet() {
            Some(steps) => most.min(u64::from(steps)),
            None => most,
        }
    }

    /// Whether a call that concerns its caller alone is all of a step: no call is at the disk, and no record is asked for.
    #[inline(always)]
    #[tactic(auto, using(crate::proofs::IdlingLaws::nobody_served, crate::proofs::IdlingLaws::nobody_waits))]
    pub fn is_alone(&self, traced: bool) -> bool
        ensures { TellsAlone traced self.now result }
    {
        if traced {
            return false;
        }
        match self.kernel.disk().quiet() {
            Some(_) => false,
            None => true,
        }
    }

    /// So many steps are done, in which the disk's pass.
    #[tactic(auto, using(crate::proofs::IdlingLaws::passes_within))]
    pub fn pass(&mut self, steps: u64)
        requires { MayPassSteps steps self.old }
        ensures { self.new ≡ later self.old steps }
    {
        self.steps += steps;
        self.kernel.pass_disk(steps as u32);
    }

    /// Whether nothing is done in a step in which nothing is due: no process runs and none is ready, and no end by an abort is put off.
    pub fn is_idle(&self) -> bool
        ensures { TellsIdle result self.now }
    {
        !self.abort_deferred
            && self.kernel.running().is_none()
            && self.kernel.first_ready().is_none()
    }
}
