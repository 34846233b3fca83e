ghost use Rattle.std.specs.Prelude.{◌≡◌, IfOk, None, Some, Err};
ghost use Rattle.std.specs.Option.{ok_or};
ghost use Rattle.toml.specs.View.{table_view};
ghost use Rattle.mpm_machine_file.specs.Reading.{ReadsValue, Gives};
ghost use Rattle.mpm_machine_file.specs.Fields.{only_keys};
ghost use Rattle.mpm_machine_file.specs.Segments.{segments_in};
ghost use Rattle.mpm_machine_file.specs.Drives.{drives_in};
ghost use Rattle.mpm_machine_file.specs.MachineFiles as spec;

use crate::drives::drives;
use crate::error::MachineError;
use crate::fields::{has_only, number_at, number_or, text_if, value_at};
use crate::lists::{DriveSpecs, Segments};
use crate::machine_file::MachineFile;
use crate::residents::residents_at;
use crate::segments::{most_segments, segments};
use std::alloc::Global;
use toml::Table;

/// Reads a machine file: a TOML document in UTF-8. It is a fault exactly where the text isn't one.
///
/// These are its keys, and no others may stand in it. Those marked * must be there.
///
/// | Key | Value | Where missing |
/// |---|---|---|
/// | `version` * | 1 or 2 | |
/// | `consoles` * | 1 to 8 | |
/// | `printers` | 0 to 4 | 1 |
/// | `tick_every` | 0, or 100 to 1,000,000 steps between two ticks | 0 |
/// | `disk_turn` | 0 to 1,000 steps | 0 |
/// | `date` | 0 to 65,535 | 1 |
/// | `hour`, `minute`, `second` | 0 to 23, 0 to 59, 0 to 59 | 0 |
/// | `script` | the name of a file, not empty | none |
/// | `segment` * | an array of 1 to 8 tables, of 1 to 16 where the version is 2: `base` * 0 to 188, `pages` * 4 to 192, together at most 192 | |
/// | `drive` | an array of at most 16 tables: `letter` * `A` to `P`, `kind` * `ibm3740`, `hd4` or `hd8`, `image` * the name of a file, not empty; letters differ, images differ | none |
/// | `residents` | in version 2 alone: an array of different texts, each `spool` or `sched` | empty |
#[tactic(auto, using(crate::proofs::MachineLaws::text_limits))]
pub fn read_machine(alloc: Global, text: &[u8]) -> Result<MachineFile, MachineError>
    ensures ok { IfOk result (λ file. spec.machine_of_text text.now ≡ Some file) }
    ensures fault { result ≡ Err MachineError.Fault → spec.machine_of_text text.now ≡ None }
    ensures limits { IfOk result spec.IsMachine }
{
    machine_in(alloc, text)
}

/// The machine file that a text is.
#[tactic(auto, unfolding(crate::specs::MachineFiles::machine_of_text))]
fn machine_in(alloc: Global, text: &[u8]) -> Result<MachineFile, MachineError>
    ensures { ReadsValue result (spec.machine_of_text text.now) }
{
    let table = document(alloc, text)?;
    machine(alloc, &table)
}

/// The table of a TOML document in UTF-8.
fn document(alloc: Global, text: &[u8]) -> Result<Table, MachineError>
    ensures { Gives table_view result (spec.document_of text.now) }
{
    match toml::table_from_slice(alloc, text) {
        Ok(table) => Ok(table),
        Err(error) if error.is_memory() => Err(MachineError::OutOfMemory),
        Err(_) => Err(MachineError::Fault),
    }
}

/// The machine file of a document's table.
#[tactic(auto, unfolding(crate::specs::MachineFiles::machine_of))]
fn machine(alloc: Global, table: &Table) -> Result<MachineFile, MachineError>
    ensures { ReadsValue result (spec.machine_of (table_view table.now)) }
{
    let version = number_at(table, "version", 1, 2)?;
    let consoles = number_at(table, "consoles", 1, 8)?;
    let printers = number_or(table, "printers", 1, 0, 4)?;
    let tick_every = tick_every(table)?;
    let disk_turn = number_or(table, "disk_turn", 0, 0, 1_000)?;
    let date = number_or(table, "date", 1, 0, 65_535)?;
    let hour = number_or(table, "hour", 0, 0, 23)?;
    let minute = number_or(table, "minute", 0, 0, 59)?;
    let second = number_or(table, "second", 0, 0, 59)?;
    let segments = segments_at(alloc, version, table)?;
    let drives = drives_at(alloc, table)?;
    let script = text_if(alloc, table, "script")?;
    let residents = residents_at(alloc, version, table)?;
    if !has_only_keys(table) {
        return Err(MachineError::Fault);
    }
    Ok(MachineFile {
        consoles: consoles as u8,
        printers: printers as u8,
        tick_every,
        disk_turn,
        date: date as u16,
        hour: hour as u8,
        minute: minute as u8,
        second: second as u8,
        segments,
        drives,
        script,
        spool: residents.spool,
        sched: residents.sched,
    })
}

/// Whether a table has the keys of a machine file alone.
fn has_only_keys(table: &Table) -> bool
    ensures { result ≡ only_keys spec.machine_keys (table_view table.now) }
{
    has_only(
        table,
        &[
            "version",
            "consoles",
            "printers",
            "tick_every",
            "disk_turn",
            "date",
            "hour",
            "minute",
            "second",
            "segment",
            "drive",
            "script",
            "residents",
        ],
    )
}

/// The number of steps between two ticks.
#[tactic(auto, unfolding(crate::specs::MachineFiles::ticks_of))]
fn tick_every(table: &Table) -> Result<u32, MachineError>
    ensures { result ≡ ok_or (spec.ticks_of (table_view table.now)) MachineError.Fault }
{
    let steps = number_or(table, "tick_every", 0, 0, 1_000_000)?;
    if steps == 0 || 100 <= steps {
        Ok(steps)
    } else {
        Err(MachineError::Fault)
    }
}

/// The segments of a machine file of a version, which must be there.
#[tactic(auto, unfolding(crate::specs::Segments::segments_in))]
fn segments_at(alloc: Global, version: u32, table: &Table) -> Result<Segments, MachineError>
    ensures { ReadsValue result (segments_in version (table_view table.now)) }
{
    match value_at(table, "segment") {
        Some(value) => segments(alloc, most_segments(version), value),
        None => Err(MachineError::Fault),
    }
}

/// The drives, or none where the key is missing.
#[tactic(auto, unfolding(crate::specs::Drives::drives_in))]
fn drives_at(alloc: Global, table: &Table) -> Result<DriveSpecs, MachineError>
    ensures { ReadsValue result (drives_in (table_view table.now)) }
{
    match value_at(table, "drive") {
        Some(value) => drives(alloc, value),
        None => Ok(DriveSpecs::of(Vec::new(alloc))),
    }
}
