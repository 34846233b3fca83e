ghost use Rattle.std.specs.Prelude.{◌≡◌};
ghost use Rattle.mpm_kernel.specs.Kernel.{IsSoundKernel, BecomesWhole};

use crate::Kernel;
use crate::waiting::{FIRST_FLAG, LAST_FLAG, POLLERS};
use mpm_script::Event;

impl Kernel {
    ghost use Rattle.mpm_kernel.specs.Asking.{MayHappen, MayBecomeReady};
    ghost use Rattle.mpm_kernel.specs.Events.{clock_ticked, device_ready as device_is_ready, flag_came, happened};

    /// An event comes: a tick of the clock, a device that is ready, a flag that is set, or a key.
    #[tactic(auto, using(crate::proofs::SoundLaws::sound_afresh), unfolding(crate::specs::Events::happens))]
    pub fn event(&mut self, event: Event)
        requires { MayHappen event self.old }
        ensures { BecomesWhole (happened event self.old) self.new }
    {
        self.begin_event();
        match event {
            Event::Tick => self.tick(),
            Event::Key { console, byte } => self.key(console, byte),
            Event::Ready { device, byte } => self.device_ready(device, byte),
            Event::Int { flag } => self.flag_came(flag),
        }
    }

    /// A flag is set from outside, as by function 133; that one is set already is reported to nobody.
    #[tactic(auto, unfolding(crate::specs::Events::flag_came))]
    fn flag_came(&mut self, flag: u8)
        requires sound { IsSoundKernel self.old }
        ensures { self.new ≡ flag_came flag self.old }
    {
        if FIRST_FLAG <= flag && flag <= LAST_FLAG {
            let _answer = self.signal(flag);
        }
    }

    /// The clock ticks: those whose delays end are woken, and who runs is put after its equals.
    #[tactic(auto, unfolding(crate::specs::Events::clock_ticked))]
    fn tick(&mut self)
        requires { IsSoundKernel self.old }
        ensures { self.new ≡ clock_ticked self.old }
    {
        let woken = self.clock.tick();
        self.dispatcher.wake(woken);
        self.dispatcher.runner_behind();
    }

    /// A device is ready with a byte: those who poll it are woken.
    #[tactic(auto, unfolding(crate::specs::Events::device_ready, crate::specs::Events::pollers))]
    fn device_ready(&mut self, device: u8, byte: u8)
        requires { MayBecomeReady device self.old }
        ensures { self.new ≡ device_is_ready self.old device byte }
    {
        let place = usize::from(device);
        self.devices.ready[place] = true;
        self.devices.last[place] = byte;
        let woken = self.dispatcher.empty(POLLERS + device);
        self.dispatcher.complete(woken);
    }
}
