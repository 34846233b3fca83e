ghost use Rattle.std.specs.Prelude.{◌≡◌};
ghost use Rattle.mpm_consoles.specs.Columns.{column_after as column_of};

/// The column after a byte: a printable one goes one on, CR to the first, BS one back.
#[tactic(auto, unfolding(crate::specs::Columns::column_after))]
pub fn column_after(column: u16, byte: u8) -> u16
    ensures { result ≡ column_of column byte }
{
    match byte {
        32..=126 => column.saturating_add(1),
        b'\r' => 0,
        8 => column.saturating_sub(1),
        _ => column,
    }
}
