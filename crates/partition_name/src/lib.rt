// The name of a partition, as a header stores it and as a caller gives it.
#![tactic(auto)]

ghost use Rattle.std.specs.Prelude.{◌≡◌, get_or};
ghost use Rattle.partition_name.specs.Name.{matches_name};

// The bytes of a stored name.
const NAME_SIZE: usize = 12;

// The byte at an index, 0x00 past the name's end.
fn padded_byte(name: &[u8], i: usize) -> u8
    ensures { result ≡ get_or name.now i 0 }
{
    name.get(i).copied().unwrap_or(0)
}

// Whether a stored name matches the one that a caller gives: this one is padded with 0x00, and both end at their first 0x00; a
// longer one matches none, and so does a stored one that does not have twelve bytes.
pub fn matches_name(stored: &[u8], given: &[u8]) -> bool
    ensures { result ≡ matches_name stored.now given.now }
{
    if stored.len() != NAME_SIZE || NAME_SIZE < given.len() {
        return false;
    }
    for (i, b) in stored.iter().enumerate() {
        let byte = padded_byte(given, i);
        if *b != byte {
            return false;
        }
        if byte == 0 {
            return true;
        }
    }
    true
}
