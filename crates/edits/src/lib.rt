// The edits of a variable in its area: set and remove.
#![tactic(auto)]

ghost use Rattle.std.specs.Prelude.{◌≡◌, [], ◌∷◌, ◌++◌, ◌+◌, ◌-◌, ◌≤◌, length};
ghost use Rattle.lists.specs.Pasted.{pasted};
ghost use Rattle.values.specs.Value.{encode};
ghost use Rattle.pairs.specs.Area.{pair_bytes};
ghost use Rattle.variables.specs.Edits.{canonical_pair};
ghost use Rattle.variables.specs.Views.{edit_reply};
ghost use Rattle.variables.specs.Calls as Calls;
ghost use Rattle.edits.specs.Helpers.{tail_shifted, replace_reply, replace_area};

use errors::Error;

// Moves the bytes from `rest` up to `used` to `to`, and zeroes the area after them.
// `rest` and `used` travel on to `replace` alone: a struct of them would be longer than what it saves.
fn shift_tail(area: &mut [u8], rest: usize, to: usize, used: usize)
    requires { (rest ≤ used) × (used ≤ length area.old) × (to + (used - rest) ≤ length area.old) }
    ensures { area.new ≡ tail_shifted area.old rest to used }
{
    let n = used - rest;
    lists::move_bytes(area, rest, to, n);
    let end = to + n;
    lists::fill(&mut area[end..], 0);
}

// Writes a pair in canonical form over a part that is just as long.
fn put_pair(part: &mut [u8], name: &[u8], value: &[u8])
    requires { length part.old ≡ length (pair_bytes (canonical_pair name.now value.now)) }
    ensures { part.new ≡ pair_bytes (canonical_pair name.now value.now) }
{
    let equals = name.len();
    let start = equals + 1;
    let end = part.len() - 1;
    lists::copy(name, &mut part[..equals]);
    part[equals] = b'=';
    encoding::encode(value, &mut part[start..end]);
    part[end] = 0;
}

// Puts a canonical pair in the place of the bytes from `start` up to `rest`; the pairs end at `used`.
fn replace(
    area: &mut [u8],
    start: usize,
    rest: usize,
    used: usize,
    name: &[u8],
    value: &[u8],
) -> Result<(), Error>
    requires { (start ≤ rest) × (rest ≤ used) × (used + 1 ≤ length area.old) }
    ensures result_value { edit_reply result ≡ replace_reply area.old start rest used (pair_bytes (canonical_pair name.now value.now)) }
    ensures area_after { area.new ≡ replace_area area.old start rest used (pair_bytes (canonical_pair name.now value.now)) }
{
    let size = encoding::encoded_len(value);
    let room = area.len() - 1 - (used - rest) - start;
    if room < size {
        return Err(Error::NoRoom); // the value alone exceeds the room
    }
    if room - size < name.len() + 2 {
        return Err(Error::NoRoom);
    }
    let to = start + name.len() + size + 2;
    shift_tail(area, rest, to, used);
    put_pair(&mut area[start..to], name, value);
    Ok(())
}

// Sets a variable: its pair is replaced where it stands, or added after the last.
pub fn set(area: &mut [u8], name: &[u8], value: &[u8]) -> Result<(), Error>
    ensures result_value { edit_reply result ≡ (Calls.call_area (Calls.set name.now value.now) area.old).reply }
    ensures area_after { area.new ≡ (Calls.call_area (Calls.set name.now value.now) area.old).area }
{
    let scanned = variables::scan_named(area, name)?;
    let used = scanned.used;
    match scanned.place {
        Some(pair) => replace(area, pair.start, pair.end + 1, used, name, value),
        None => replace(area, used, used, used, name, value),
    }
}

// Removes a variable: its pair is taken out, and the pairs after it close up.
pub fn remove(area: &mut [u8], name: &[u8]) -> Result<(), Error>
    ensures result_value { edit_reply result ≡ (Calls.call_area (Calls.remove name.now) area.old).reply }
    ensures area_after { area.new ≡ (Calls.call_area (Calls.remove name.now) area.old).area }
{
    let scanned = variables::scan_named(area, name)?;
    let pair = scanned.place.ok_or(Error::NoVariable)?;
    shift_tail(area, pair.end + 1, pair.start, scanned.used);
    Ok(())
}
