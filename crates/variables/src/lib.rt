// The calls that leave a variable area as it is: count and read; and the scan for a variable.
#![tactic(auto)]

ghost use Rattle.std.specs.Prelude.{◌≡◌};
ghost use Rattle.variables.specs.Helpers.{named_scan};
ghost use Rattle.variables.specs.Views.{amount_reply};
ghost use Rattle.variables.specs.Calls as Calls;

use errors::Error;
use pairs::Scanned;

// Scans an area for a variable; a bad name goes before the area's faults.
pub fn scan_named(area: &[u8], name: &[u8]) -> Result<Scanned, Error>
    ensures { result ≡ named_scan area.now name.now }
{
    names::check(name)?;
    pairs::scan(area, name)
}

// Counts the variables of an area.
pub fn count(area: &[u8]) -> Result<usize, Error>
    ensures { amount_reply result ≡ (Calls.call_area Calls.count area.now).reply }
{
    let scanned = pairs::scan(area, b"")?;
    Ok(scanned.count)
}

// Reads a variable: its value goes to the start of the buffer, and its length is answered.
pub fn read(area: &[u8], name: &[u8], buffer: &mut [u8]) -> Result<usize, Error>
    ensures result_value { amount_reply result ≡ (Calls.call_area (Calls.read name.now buffer.old) area.now).reply }
    ensures buffer_after { buffer.new ≡ (Calls.call_area (Calls.read name.now buffer.old) area.now).buffer }
{
    let scanned = scan_named(area, name)?;
    let pair = scanned.place.ok_or(Error::NoVariable)?;
    let from = pair.equals + 1;
    values::decode(&area[from..pair.end], buffer).ok_or(Error::ShortBuffer)
}
