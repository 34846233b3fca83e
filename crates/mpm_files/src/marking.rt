ghost use Rattle.std.specs.Prelude.{◌≡◌, ◌%◌, map, nat_le};
ghost use Rattle.mpm_dirent.specs.Names.{plain};
ghost use Rattle.mpm_files.specs.Turning.{marks_set};

/// A byte of a name with bit 7 of another.
#[tactic(auto, using(crate::proofs::Marks::mark_of, crate::proofs::Marks::rest_of))]
fn marked_byte(byte: u8, mark: u8) -> u8
    ensures rest { result % 128 ≡ byte % 128 }
    ensures mark { nat_le 128 result ≡ nat_le 128 mark }
{
    byte % 128 + mark / 128 * 128
}

/// A name with bit 7 of each byte of another one.
#[tactic(auto, using(crate::proofs::Marks::plain_kept, crate::proofs::Marks::marks_taken))]
pub(crate) fn marked(name: &[u8; 11], marks: &[u8; 11]) -> [u8; 11]
    ensures name { plain result ≡ plain name.now }
    ensures marks { map (nat_le 128) result ≡ map (nat_le 128) marks.now }
{
    let mut marked = *name;
    for place in 0..11 {
        marked[place] = marked_byte(name[place], marks[place]);
    }
    marked
}

/// The attributes F1' to F4' and T1' to T3' of a name, and F5' to F8' of another.
pub(crate) fn attributes_over(wanted: &[u8; 11], old: &[u8; 11]) -> [u8; 11]
    ensures { result ≡ marks_set wanted.now old.now }
{
    let mut marks = *wanted;
    marks[4..8].copy_from_slice(&old[4..8]);
    marks
}
