// What a making returns: refused, the state for rate 8,000 and ceiling 8.
ghost use Rattle.std.specs.Prelude.{◌≡◌};
ghost use Rattle.scan.specs.Calls.{changed_by};
ghost use Rattle.scan.specs.State.{new_scan};
ghost use Rattle.answers.specs.declared.Change.TheVariants as Change;
ghost use Rattle.scan_panel_calls.specs.Made.{panel_returned};

use answers::Change;
use scan::Changed;
use scan_calls::parts;

pub fn refused(number: u8) -> Changed
    ensures { result ≡ changed_by (Change.Refused number) (new_scan 8000 8) }
{
    parts::refused(parts::new_scan(8000, 8), number)
}

// From what the scan's own making returned.
pub fn returned(made: Changed) -> Changed
    ensures { result ≡ panel_returned made }
{
    match made.answer {
        Change::Refused(n) => refused(n),
        Change::Done => made,
    }
}
