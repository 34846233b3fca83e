ghost use Rattle.std.specs.Io.{ReadsAtMost};
ghost use Rattle.std.specs.Io.KnownBytes.{ReadConsumes};
ghost use Rattle.mpm_port.specs.Fetches.{Fetches};

use mpm_port::{FetchError, Fetched};
use std::io::{self, ErrorKind, Read};

/// How many bytes are asked for at once.
const PIECE: usize = 4_096;

/// Appends the bytes that are left to read, at most `limit` of them.
#[tactic(auto, using(crate::proofs::Known::nothing_taken, crate::proofs::Known::more_taken, crate::proofs::Known::whole_taken, crate::proofs::Known::first_taken, crate::proofs::Known::part_taken))]
pub(crate) fn append_first<R: Read>(
    file: &mut R,
    limit: usize,
    out: &mut Vec<u8>,
) -> Result<Fetched, FetchError>
    ensures { Fetches (R.remaining file.old) limit out.old.items out.new.items result }
{
    let mut piece = [0; PIECE];
    let mut room = limit;
    for _ in 0..u64::MAX {
        let Ok(count) = read_some(file, &mut piece) else {
            return Err(FetchError::Failed);
        };
        if count == 0 {
            return Ok(Fetched::Whole);
        }
        let taken = count.min(room);
        if out.extend_from_slice(&piece[..taken]).is_err() {
            return Err(FetchError::OutOfMemory);
        }
        if taken < count {
            return Ok(Fetched::Longer);
        }
        room -= taken;
    }
    Err(FetchError::Failed)
}

/// One read, made again where a signal interrupts it.
#[tactic(auto, using(crate::proofs::Known::consumes_later))]
fn read_some<R: Read>(file: &mut R, piece: &mut [u8; PIECE]) -> io::Result<usize>
    ensures bound { ReadsAtMost result piece.new }
    ensures bytes { ReadConsumes (R.remaining file.old) (R.remaining file.new) result piece.new }
{
    for _ in 0..u64::MAX {
        match file.read(piece) {
            Ok(count) => return Ok(count),
            Err(error) => {
                if error.kind() != ErrorKind::Interrupted {
                    return Err(error);
                }
            }
        }
    }
    Err(io::Error::from(ErrorKind::Interrupted))
}
