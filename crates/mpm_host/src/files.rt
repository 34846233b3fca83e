ghost use Rattle.std.specs.Prelude.{◌≡◌, ℕ, List, None};

use crate::reading::append_first;
use mpm_port::{FailedNames, FetchError, Fetched, Files};
use std::fs::File;
use std::marker::Model;

/// The files of the host by their paths. A read that a signal interrupts is asked for again.
#[derive(Drop)]
pub struct RealFiles {
    host: HostRuntime,
    failed: FailedNames,
}

impl Model for RealFiles {
    ghost use Rattle.std.specs.Prelude.{ℕ, List};

    ghost Value = { List (List ℕ) };

    ghost view = { λ f. f.failed };
}

impl RealFiles {
    ghost use Rattle.std.specs.Prelude.{[]};

    /// No call has failed.
    pub fn new(host: HostRuntime) -> RealFiles
        ensures { result ≡ [] }
    {
        let failed = FailedNames::new(host.alloc());
        RealFiles { host, failed }
    }
}

impl Files for RealFiles {
    ghost contents = { λ _ _. None };

    ghost missing = { λ _ _. ⊥ };

    ghost failed_names = { λ f. f };

    fn fetch(
        &mut self,
        name: &str,
        limit: usize,
        out: &mut Vec<u8>,
    ) -> Result<Fetched, FetchError> {
        let Ok(mut file) = File::open(&self.host, name) else {
            return Err(self.failed.refuse(name));
        };
        match append_first(&mut file, limit, out) {
            Err(FetchError::Failed) => Err(self.failed.refuse(name)),
            answer => answer,
        }
    }
}
