ghost use Rattle.std.specs.Prelude.{◌≡◌, List, Option};
ghost use Rattle.mpm_mount.specs.Drives.{Drive};
ghost use Rattle.mpm_bdos.specs.Outcomes.{left_by, without_search};
ghost use Rattle.mpm_bdos.specs.Asking.{MayDoTurns};
ghost use Rattle.mpm_bdos.specs.ServiceTurns.{TurnsServedCall};
ghost use Rattle.mpm_bdos.specs.WholeCalls.{KeepsNothingYet, AnswersDirectly};

use crate::directories::Directories;
use crate::service::Held;
use crate::turning::turn_service;
use mpm_base::{Call, Pid, Reply, Steps};
use mpm_cache::{Cache, OutOfMemory};
use mpm_directories::do_directly;
use mpm_file_functions::{DirectFunction, Extended};
use mpm_files::Progress;
use mpm_marks::{Marks, Protected};
use mpm_mount::Mounted;
use mpm_opens::Opens;
use mpm_port::{Drives, Failed};
use mpm_procs::Process;
use mpm_refusals::Searches;
use std::alloc::Global;
use std::marker::Model;
use std::sync::ledger::Ledger;

/// The basic disk operating system: the calls on files and drives, one in service at a time, over the drives that are mounted.
/// (MP/M II Programmer's Guide, "BDOS Function Calls".)
#[derive(Drop)]
pub struct Bdos {
    pub(crate) mounted: Directories,
    pub(crate) cache: Cache,
    pub(crate) protected: Protected,
    pub(crate) opens: Opens,
    pub(crate) marks: Marks,
    pub(crate) searches: Searches,
    pub(crate) service: Held,
}

impl Model for Bdos {
    ghost use Rattle.mpm_bdos.specs.Serving.{Kept};
    ghost use Rattle.mpm_bdos.specs.Held.{HoldsCall};

    ghost Value = { Kept };

    ghost view = { λ b. record {
      mounted = b.mounted;
      cached = b.cache;
      protected = b.protected;
      opens = b.opens;
      marks = b.marks;
      searches = b.searches;
      service = b.service;
    } };

    ghost invariant = { λ b. HoldsCall b.mounted b.opens b.service };
}

impl Bdos {
    ghost use Rattle.mpm_opens.specs.Opens.{AreOpen};
    ghost use Rattle.mpm_directories.specs.Places.{AreInPlace, directory_at};
    ghost use Rattle.mpm_bdos.specs.Serving.{filing_of};
    ghost use Rattle.std.specs.Option.{option_copied};

    /// Nothing is open, marked, sought or protected, nothing is cached, and no call is in service. Of the sixteen drives those
    /// are mounted whose directories there are, each in the place of its drive's number.
    ///
    /// # Errors
    /// Where no memory is found for the cache, or for a call in service.
    pub fn new(alloc: Global, mounted: Vec<Option<Mounted>>) -> Result<Bdos, OutOfMemory>
        requires { AreInPlace mounted.items }
        ensures { KeepsNothingYet mounted.items result }
    {
        let cache = Cache::new(alloc)?;
        let service = Held::none(alloc)?;
        Ok(Bdos {
            mounted: Directories::of(mounted),
            cache,
            protected: Protected::new(),
            opens: Opens::new(),
            marks: Marks::new(),
            searches: Searches::new(),
            service,
        })
    }

    /// The directory in memory of a drive, 0 for A, where it is mounted.
    pub fn directory(&self, drive: u8) -> Option<&Mounted>
        ensures { option_copied result ≡ directory_at self.now.mounted drive }
    {
        self.mounted.get(drive)
    }

    /// Does a call that no disk serves, as 14, 24, 29, 31 and 36 are, of a process, by which drives are mounted and protected,
    /// whatever is on them; nothing where it is another one. While a call is in service it answers as before that. What becomes of
    /// the process's drive is not done here.
    pub fn direct(&self, call: &Call, process: &Process, reply: &mut Reply) -> Option<Extended>
        ensures { AnswersDirectly self.now process.now.drive call.now reply.old reply.new result }
    {
        match DirectFunction::of(call.function) {
            Some(function) => do_directly(
                self.mounted.places(),
                &self.protected,
                function,
                process.drive,
                call,
                reply,
            ),
            None => None,
        }
    }

    /// Says what is so at any time of open files and locks, no two of which are of one record.
    pub fn recall_sound(&self)
        ensures { AreOpen self.now.opens }
    {
        self.opens.recall_sound();
    }

    /// Gives back all that a process that ended has open, its locks and its marks, and forgets what it searched for last.
    #[tactic(auto, using(crate::proofs::HeldLaws::held_left), unfolding(crate::specs::Outcomes::left_by, crate::specs::Outcomes::without_search))]
    pub fn give_back(&mut self, p: Pid)
        ensures filing { (drives : List (Option Drive)) → filing_of self.new drives ≡ without_search (left_by (filing_of self.old drives) p) p }
        ensures rest { self.new ≡ record self.old { opens = self.new.opens; marks = self.new.marks; searches = self.new.searches } }
    {
        self.opens.give_back(p);
        self.marks.leave(p);
        self.searches.forget(p);
    }

    /// Does the next turn of the call in service, and tells whether another is left. Where the call has work on its drive, a turn of
    /// it must be left; where it has none, nothing is done. A turn takes 20 calls of the drives at most; one that reads a record
    /// takes one, or none where that record's sector is cached.
    ///
    /// # Errors
    /// Where the drive of the call failed: each other drive is as it was.
    pub fn turn<D: Drives, L: Ledger>(
        &mut self,
        drives: &mut D,
        steps: &mut Steps<L>,
    ) -> Result<Progress, Failed>
        requires { MayDoTurns D.disks 1 self.old drives.old }
        ensures { TurnsServedCall D.Drives self.old self.new drives.old drives.new steps.old steps.new result }
    {
        turn_service(
            &mut self.service,
            &mut self.mounted,
            &mut self.cache,
            drives,
            steps,
        )
    }
}
