use mpm_base::Call;
use mpm_file_functions::{FileFunction, Refusal};
use mpm_files::Work;
use mpm_opens::FileKey;
use mpm_refusals::Caller;
use std::alloc::{AllocError, Global};
use std::marker::Model;

/// A file call in service, as it was when it entered, and how far its job is.
///
/// It keeps that its caller's user and multi-sector count are in their ranges.
#[derive(Drop)]
pub(crate) struct Service {
    /// Who calls.
    pub(crate) caller: Caller,
    pub(crate) function: FileFunction,
    /// The drive that it names, from 0, or else its caller's.
    pub(crate) drive: u8,
    pub(crate) call: Call,
    /// The stamp of the moment when it entered.
    pub(crate) moment: [u8; 4],
    /// Why it is refused, if it is.
    pub(crate) refusal: Option<Refusal>,
    /// The work of its job, if it has one.
    pub(crate) work: Option<Work>,
    /// Its caller's open files that it deletes, each at the place of its number.
    pub(crate) deleted: [Option<FileKey>; 64],
}

impl Model for Service {
    ghost use Rattle.mpm_bdos.specs.Serving.{InService, IsCaller};

    ghost Value = { InService };

    ghost view = { λ s. record {
      caller = s.caller;
      function = s.function;
      drive = s.drive;
      call = s.call;
      moment = s.moment;
      refusal = s.refusal;
      work = s.work;
      deleted = s.deleted;
    } };

    ghost invariant = { λ s. IsCaller s.caller };
}

/// The call in service, where one is. It stays where it is, as it takes some 9 KiB.
#[derive(Drop)]
pub(crate) struct Held {
    pub(crate) place: Box<Option<Service>>,
}

impl Model for Held {
    ghost use Rattle.std.specs.Prelude.{Option};
    ghost use Rattle.mpm_bdos.specs.Serving.{InService};

    ghost Value = { Option InService };

    ghost view = { λ h. h.place.value };
}

impl Held {
    ghost use Rattle.std.specs.Prelude.{◌≡◌, None, Some, IfOk};

    /// No call is in service.
    ///
    /// # Errors
    /// Where no memory is found for one.
    pub(crate) fn none(alloc: Global) -> Result<Held, AllocError>
        ensures { IfOk result (λ held. held ≡ None) }
    {
        match Box::new(alloc, None) {
            Ok(place) => Ok(Held { place }),
            Err(_) => Err(AllocError),
        }
    }

    /// The call in service.
    pub(crate) fn get(&self) -> &Option<Service>
        ensures { result.now ≡ self.now }
    {
        &self.place
    }

    /// A call enters service.
    pub(crate) fn enter(&mut self, service: Service)
        ensures { self.new ≡ Some service }
    {
        *self.place = Some(service);
    }

    /// No call is in service any more.
    pub(crate) fn leave(&mut self)
        ensures { self.new ≡ None }
    {
        *self.place = None;
    }
}
