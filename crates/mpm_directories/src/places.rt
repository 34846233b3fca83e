ghost use Rattle.std.specs.Prelude.{◌≡◌, Some, None, IfOk, replicate, slice_set};
ghost use Rattle.std.specs.Option.{option_copied};
ghost use Rattle.mpm_directories.specs.Places.{AreInPlace, in_places as all_in_places, directory_at, kind_at};

use mpm_base::Kind;
use mpm_mount::Mounted;
use mpm_port::OutOfMemory;
use std::alloc::Global;

/// Sixteen places, in which no drive is mounted.
fn no_places(alloc: Global) -> Result<Vec<Option<Mounted>>, OutOfMemory>
    ensures { IfOk result (λ places. places.items ≡ replicate 16 None) }
{
    let places = Vec::from_array(
        alloc,
        [
            None, None, None, None, None, None, None, None, None, None, None, None, None, None,
            None, None,
        ],
    )?;
    Ok(places)
}

/// Puts a directory into the place of its drive's number, if there is that place.
#[tactic(auto, using(crate::proofs::Placed::one_placed))]
fn put(places: &mut Vec<Option<Mounted>>, mounted: Mounted)
    ensures put { places.new.items ≡ slice_set places.old.items mounted.drive (Some mounted) }
    ensures placed { AreInPlace places.old.items → AreInPlace places.new.items }
{
    mounted.recall_directory();
    let number = usize::from(mounted.drive());
    if number < places.len() {
        places[number] = Some(mounted);
    }
}

/// The directories of mounted drives, each in the place of its drive's number, of which there are sixteen. Of two of one drive
/// the first is in its place.
///
/// # Errors
/// Where no memory is found for the places.
#[tactic(auto, using(crate::proofs::Placed::none_placed, crate::proofs::Placed::last_put, crate::proofs::Placed::none_put))]
pub fn in_places(
    alloc: Global,
    mut mounted: Vec<Mounted>,
) -> Result<Vec<Option<Mounted>>, OutOfMemory>
    ensures places { IfOk result (λ places. places.items ≡ all_in_places mounted.items) }
    ensures each { IfOk result (λ places. AreInPlace places.items) }
{
    let mut places = no_places(alloc)?;
    while let Some(next) = mounted.pop() {
        put(&mut places, next);
    }
    Ok(places)
}

/// The directory of a drive, where it is mounted; none above the sixteenth is.
fn directory(places: &[Option<Mounted>], drive: u8) -> Option<&Mounted>
    ensures { option_copied result ≡ directory_at places.now drive }
{
    match places.get(usize::from(drive)) {
        Some(place) => place.as_ref(),
        None => None,
    }
}

/// The kind of a drive, where it is mounted; none above the sixteenth is.
pub(crate) fn kind(places: &[Option<Mounted>], drive: u8) -> Option<Kind>
    ensures { result ≡ kind_at places.now drive }
{
    match directory(places, drive) {
        Some(mounted) => Some(mounted.kind()),
        None => None,
    }
}
