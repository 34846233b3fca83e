ghost use Rattle.std.specs.Prelude.{◌≡◌, List};
ghost use Rattle.mpm_base.specs.declared.segment.SegmentSpec.{SegmentSpec};

use crate::text::Text;
use mpm_base::{Kind, SegmentSpec};
use std::marker::Model;

/// The memory segments of a machine. Contracts see the list of them.
#[derive(Debug, Drop)]
pub struct Segments {
    items: Vec<SegmentSpec>,
}

impl Model for Segments {
    ghost Value = { List SegmentSpec };

    ghost view = { λ segments. segments.items.items };
}

impl Segments {
    /// Keeps some segments.
    pub fn of(items: Vec<SegmentSpec>) -> Segments
        ensures { result ≡ items.items }
    {
        Segments { items }
    }

    /// The segments, in the file's order.
    pub fn as_slice(&self) -> &[SegmentSpec]
        ensures { result.now ≡ self.now }
    {
        self.items.as_slice()
    }
}

/// A disk drive: its letter, the kind of its disk, and the name of the image that holds it.
#[derive(Debug, Drop)]
pub struct DriveSpec {
    /// The letter as a character, `A` to `P`.
    pub letter: u8,
    /// The kind of its disk.
    pub kind: Kind,
    /// The name of its image, which isn't empty.
    pub image: Text,
}

/// The disk drives of a machine. Contracts see the list of them.
#[derive(Debug, Drop)]
pub struct DriveSpecs {
    items: Vec<DriveSpec>,
}

impl Model for DriveSpecs {
    ghost use Rattle.std.specs.Prelude.{List};
    ghost use Rattle.mpm_machine_file.specs.declared.lists.DriveSpec.{DriveSpec};

    ghost Value = { List DriveSpec };

    ghost view = { λ drives. drives.items.items };
}

impl DriveSpecs {
    /// Keeps some drives.
    pub fn of(items: Vec<DriveSpec>) -> DriveSpecs
        ensures { result ≡ items.items }
    {
        DriveSpecs { items }
    }

    /// The drives, in the order of their letters.
    pub fn as_slice(&self) -> &[DriveSpec]
        ensures { result.now ≡ self.now }
    {
        self.items.as_slice()
    }
}

/// A process of the system that a machine file may ask for.
#[derive(Clone, Copy, Debug, PartialEq, Eq)]
pub enum Resident {
    /// The print spooler.
    Spool,
    /// The scheduler of commands.
    Sched,
}

/// The processes of the system that a machine file asks for.
#[derive(Clone, Copy, Debug, PartialEq, Eq)]
pub struct ResidentList {
    /// Whether it asks for the print spooler.
    pub spool: bool,
    /// Whether it asks for the scheduler of commands.
    pub sched: bool,
}
