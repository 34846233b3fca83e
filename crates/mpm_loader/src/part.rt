ghost use Rattle.std.specs.Prelude.{take, drop};
ghost use Rattle.mpm_loader.specs.Pieces.{IsCut, part as part_between};

/// The bytes of a piece that stand between two places of a file, the second one not included. So many bytes of the file stand
/// before the piece.
#[tactic(auto, unfolding(crate::specs::Pieces::part))]
pub fn part(piece: &[u8], before: u32, low: u32, high: u32) -> &[u8]
    ensures { IsCut (part_between before low high piece.now) piece.now result.now }
{
    let front = first(piece, high.saturating_sub(before));
    behind(front, low.saturating_sub(before))
}

/// The first bytes, so many at most.
fn first(bytes: &[u8], most: u32) -> &[u8]
    ensures { IsCut (take most bytes.now) bytes.now result.now }
{
    let count = most as usize;
    if count < bytes.len() {
        &bytes[..count]
    } else {
        bytes
    }
}

/// What follows so many bytes.
fn behind(bytes: &[u8], count: u32) -> &[u8]
    ensures { IsCut (drop count bytes.now) bytes.now result.now }
{
    let count = count as usize;
    if count < bytes.len() {
        &bytes[count..]
    } else {
        &[]
    }
}
