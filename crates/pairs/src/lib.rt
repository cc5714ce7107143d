// The pairs of a variable area: what stands at an offset, and the scan of the whole area.
#![tactic(auto)]

ghost use Rattle.std.specs.Prelude.{◌≡◌, false, ◌≤◌, length, take, drop};
ghost use Rattle.repeats.specs.Pieces.{first_repeat};
ghost use Rattle.pairs.specs.Scan.{scan_name, scan_value, stand_at};
ghost use Rattle.pairs.specs.Area.{parse};
ghost use Rattle.pairs.specs.Helpers.{ends_at, cut_off, end_of, place_of, unrepeated, scanned_of, find_at};

use errors::{AreaFault, Error};

// Where a pair stands: the offsets of its name, of its `=` and of its 0x00.
#[derive(Clone, Copy)]
pub struct Place {
    pub start: usize,
    pub equals: usize,
    pub end: usize,
}

// An area without a fault: the number of its pairs, the offset of the ending 0x00, and the first pair of the name that was sought.
#[derive(Clone, Copy)]
pub struct Scanned {
    pub count: usize,
    pub used: usize,
    pub place: Option<Place>,
}

// Whether a stored name ends at an offset: its `=` stands there, or the area ends.
fn ends_at(area: &[u8], at: usize) -> bool
    ensures { result ≡ ends_at area.now at }
{
    if area.len() <= at {
        return true;
    }
    area[at] == b'='
}

// The fault of an area of so many bytes that ends inside a pair, or where a pair or the end should begin.
fn cut_off(len: usize) -> Error
    ensures { result ≡ cut_off len }
{
    Error::BadArea {
        fault: AreaFault::AreaEnd,
        at: len,
    }
}

// Scans a name up to its `=`, and checks it as a caller's is.
fn scan_name(area: &[u8], from: usize) -> Result<usize, Error>
    ensures { result ≡ end_of AreaFault.StoredName (length area.now) from from (scan_name (drop from area.now)) }
{
    let end = names::name_end(area, from);
    if let Err(wrong) = names::check_by_allowed(end - from, ends_at(area, end)) {
        return Err(Error::BadArea {
            fault: AreaFault::StoredName,
            at: from + wrong.at,
        });
    }
    if end < area.len() {
        Ok(end)
    } else {
        Err(cut_off(area.len()))
    }
}

// Scans a stored value up to its 0x00.
fn scan_value(area: &[u8], from: usize) -> Result<usize, Error>
    ensures { result ≡ end_of AreaFault.Escape (length area.now) from from (scan_value false 0 (drop from area.now)) }
{
    let mut i = from;
    // It answers offsets: over a slice that is taken off the front, each answer would be a difference of two lengths.
    loop {
        i = lists::find_either(area, i, 0x00, 0xFF);
        if area.len() <= i {
            break Err(cut_off(area.len()));
        }
        if area[i] == 0 {
            break Ok(i);
        }
        i += 1;
        if area.len() <= i {
            break Err(cut_off(area.len()));
        }
        if area[i] % 128 == 0 {
            break Err(Error::BadArea {
                fault: AreaFault::Escape,
                at: i,
            });
        }
        i += 1;
    }
}

// The pair at an offset where a pair or the end should begin; none where the ending 0x00 stands.
pub fn pair_at(area: &[u8], at: usize) -> Result<Option<Place>, Error>
    ensures { result ≡ place_of (length area.now) at (stand_at (drop at area.now)) }
{
    if area.len() <= at {
        return Err(cut_off(area.len()));
    }
    if area[at] == 0 {
        return Ok(None);
    }
    let equals = scan_name(area, at)?;
    let end = scan_value(area, equals + 1)?;
    Ok(Some(Place {
        start: at,
        equals,
        end,
    }))
}

// Refuses a name that stands twice among the complete pairs, which end at `at`.
fn unrepeated(area: &[u8], at: usize) -> Result<(), Error>
    requires { at ≤ length area.now }
    ensures { result ≡ unrepeated (first_repeat (take at area.now)) }
{
    match repeats::first_repeat(&area[..at]) {
        Some(later) => Err(Error::BadArea {
            fault: AreaFault::Repeated,
            at: later,
        }),
        None => Ok(()),
    }
}

// Scans the whole area once: its pairs up to the ending 0x00 with the first pair of that name, or its first fault.
pub fn scan(area: &[u8], name: &[u8]) -> Result<Scanned, Error>
    ensures { result ≡ scanned_of (parse area.now) (find_at area.now name.now) }
{
    let mut at = 0;
    let mut count = 0;
    let mut place = None;
    // The paper names this form: the name comparison nested in the pair scan, and left by a label.
    'pairs: loop {
        let seen = pair_at(area, at);
        let Ok(Some(pair)) = seen else {
            unrepeated(area, at)?; // a repeat goes before the fault that ends the pairs
            seen?;
            break 'pairs Ok(Scanned {
                count,
                used: at,
                place,
            });
        };
        at = pair.end + 1;
        count += 1;
        if pair.equals - pair.start != name.len() {
            continue 'pairs;
        }
        for (k, byte) in name.iter().enumerate() {
            if area[pair.start + k] != *byte {
                continue 'pairs;
            }
        }
        place = place.or(Some(pair));
    }
}
