ghost use Rattle.std.specs.Prelude.{◌≡◌};
ghost use Rattle.mpm_base.specs.Tabs.{tab_width as width_of_tab};

/// How many columns a tab at a column goes on, 1 to 8: to the next one that eight divides. (MP/M II Programmer's Guide,
/// "Function 2: Console Output".)
pub fn tab_width(column: u16) -> u8
    ensures { result ≡ width_of_tab column }
{
    (8 - column % 8) as u8
}
