ghost use Rattle.std.specs.Prelude.{◌≡◌};
ghost use Rattle.std.specs.Option.{ok_or};
ghost use Rattle.toml.specs.View.{view, items_view, table_view};
ghost use Rattle.mpm_machine_file.specs.Reading.{ReadsValue, Gives};
ghost use Rattle.mpm_machine_file.specs.Fields.{all_of};
ghost use Rattle.mpm_machine_file.specs.Residents as spec;

use crate::error::MachineError;
use crate::fields::value_at;
use crate::lists::{Resident, ResidentList};
use std::alloc::Global;
use toml::{Table, Value};

/// The residents of a machine file of a version, or none where the key is missing. Version 1 has no such key.
#[tactic(auto, unfolding(crate::specs::Residents::residents_in))]
pub fn residents_at(
    alloc: Global,
    version: u32,
    table: &Table,
) -> Result<ResidentList, MachineError>
    ensures { ReadsValue result (spec.residents_in version (table_view table.now)) }
{
    match value_at(table, "residents") {
        Some(_) if version == 1 => Err(MachineError::Fault),
        Some(value) => residents(alloc, value),
        None => Ok(ResidentList {
            spool: false,
            sched: false,
        }),
    }
}

/// The residents of the array at `residents`, each of them named at most once.
#[tactic(auto, unfolding(crate::specs::Residents::residents_of))]
fn residents(alloc: Global, value: &Value) -> Result<ResidentList, MachineError>
    ensures { ReadsValue result (spec.residents_of (view value.now)) }
{
    let Some(items) = value.as_array() else {
        return Err(MachineError::Fault);
    };
    let named = each_resident(alloc, items.as_slice())?;
    let spool = times(Resident::Spool, named.as_slice());
    let sched = times(Resident::Sched, named.as_slice());
    if spool > 1 || sched > 1 {
        return Err(MachineError::Fault);
    }
    Ok(ResidentList {
        spool: spool == 1,
        sched: sched == 1,
    })
}

/// Each of some values as a resident.
fn each_resident(alloc: Global, items: &[Value]) -> Result<Vec<Resident>, MachineError>
    ensures { Gives (λ v. v.items) result (all_of spec.resident_of (items_view items.now)) }
{
    let mut residents = Vec::new(alloc);
    for item in items {
        residents.push(resident(item)?)?;
    }
    Ok(residents)
}

/// The name of a resident.
fn resident(value: &Value) -> Result<Resident, MachineError>
    ensures { result ≡ ok_or (spec.resident_of (view value.now)) MachineError.Fault }
{
    let Some(text) = value.as_str() else {
        return Err(MachineError::Fault);
    };
    match text {
        "spool" => Ok(Resident::Spool),
        "sched" => Ok(Resident::Sched),
        _ => Err(MachineError::Fault),
    }
}

/// How often a resident is among some.
fn times(one: Resident, residents: &[Resident]) -> usize
    ensures { result ≡ spec.times one residents.now }
{
    residents
        .iter()
        .filter(|other| is_same(one, **other))
        .count()
}

/// Whether two residents are the same.
fn is_same(one: Resident, other: Resident) -> bool
    ensures { result ≡ spec.is_same one other }
{
    match (one, other) {
        (Resident::Spool, Resident::Spool) => true,
        (Resident::Sched, Resident::Sched) => true,
        _ => false,
    }
}
