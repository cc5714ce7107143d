// Every value of a variable area made canonical, in its place: normalize.
#![tactic(auto)]

ghost use Rattle.std.specs.Prelude.{◌≡◌, ◌+◌, ◌≤◌, ◌<◌, length};
ghost use Rattle.lists.specs.Pasted.{pasted};
ghost use Rattle.pairs.specs.Area.{parse};
ghost use Rattle.variables.specs.Views.{edit_reply};
ghost use Rattle.variables.specs.Calls as Calls;
ghost use Rattle.normalization.specs.Helpers.{PairMoves, pair_recoded, Parses, normalized_bytes};

use errors::Error;
use pairs::Place;

// Makes a pair canonical at `to`, at or before it; answers the offset after it.
fn normalize_pair(area: &mut [u8], pair: Place, to: usize) -> usize
    requires { PairMoves area.old pair to }
    ensures upper_bound { result ≤ pair.end + 1 }
    ensures value { result ≡ to + length (pair_recoded area.old pair) }
    ensures area_after { area.new ≡ pasted area.old to (pair_recoded area.old pair) }
{
    let n = pair.equals + 1 - pair.start;
    lists::move_bytes(area, pair.start, to, n);
    let m = encoding::recode(area, pair.equals + 1, pair.end, to + n).unwrap();
    let past = to + n + m;
    area[past] = 0;
    past + 1
}

// Makes every pair canonical, one after the other from the area's first byte; answers the offset after the last.
fn normalize_pairs(area: &mut [u8]) -> usize
    requires { Parses area.old }
    ensures upper_bound { result < length area.old }
    ensures value { result ≡ length (normalized_bytes (parse area.old)) }
    ensures area_after { area.new ≡ pasted area.old 0 (normalized_bytes (parse area.old)) }
{
    // The pairs are rewritten as they are gone over, so that no iterator can hold the area.
    let mut at = 0;
    let mut to = 0;
    while let Ok(Some(pair)) = pairs::pair_at(area, at) {
        to = normalize_pair(area, pair, to);
        at = pair.end + 1;
    }
    to
}

// Makes every value canonical, and zeroes what follows the pairs.
pub fn normalize(area: &mut [u8]) -> Result<(), Error>
    ensures result_value { edit_reply result ≡ (Calls.call_area Calls.normalize area.old).reply }
    ensures area_after { area.new ≡ (Calls.call_area Calls.normalize area.old).area }
{
    pairs::scan(area, b"")?;
    let past = normalize_pairs(area);
    lists::fill(&mut area[past..], 0);
    Ok(())
}
