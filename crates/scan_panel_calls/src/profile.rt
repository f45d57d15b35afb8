// What the profile allows.
ghost use Rattle.std.specs.Prelude.{◌≡◌};
ghost use Rattle.scan_panel.specs.Panel;
ghost use Rattle.scan_panel.specs.Panel.{panel_table};

use scan::Scan;

// Rate 8,000 or 16,000, and a ceiling of 8 to 320 ms.
pub fn in_table(rate: u32, ceiling: u32) -> bool
    ensures { result ≡ panel_table rate ceiling }
{
    (rate == 8000 || rate == 16000) && answers::within(8, 320, ceiling)
}

// The settings that a state was made with.
pub fn allows(scan: Scan) -> bool
    ensures { result ≡ Panel.allows scan }
{
    in_table(scan.geometry.rate, scan.geometry.ceiling)
}
