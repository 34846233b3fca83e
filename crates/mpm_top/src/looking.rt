ghost use Rattle.std.specs.Prelude.{◌≡◌};
ghost use Rattle.mpm_system.specs.declared.system.System.{System};
ghost use Rattle.mpm_system.specs.Whole.{IsWhole};

use mpm_machine::Machine;

/// Who looks at the machine of a run after its last step, before the end of the run.
pub trait Look {
    /// What is left of who looked at the machine of that system.
    ghost saw: { Self → System → Self → Type 0 };

    /// Looks at a machine between two steps.
    fn look(&mut self, machine: &Machine)
        requires { IsWhole machine.now.system }
        ensures { saw self.old machine.now.system self.new };
}

/// Nobody looks.
#[derive(Drop)]
pub(crate) struct Nobody;

impl Look for Nobody {
    ghost saw = { λ old system new. new ≡ old };

    fn look(&mut self, _machine: &Machine) {}
}
