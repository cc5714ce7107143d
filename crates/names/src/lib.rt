// The rule for a variable's name: 1 to 31 bytes, each one marked in a table.
#![tactic(auto)]

ghost use Rattle.std.specs.Prelude.{◌≡◌, ◌+◌, not, drop, position};
ghost use Rattle.errors.specs.declared.Error.TheVariants.{BadName};
ghost use Rattle.names.specs.Name.{name_byte, name_check};
ghost use Rattle.names.specs.Helpers.{allowed_ahead, check_by_allowed};

use errors::Error;

// Where a name breaks the rule first.
#[derive(Clone, Copy)]
pub struct NameFault {
    // The index of the first byte that is not allowed, or of the 32nd byte; 0 for an empty name.
    pub at: usize,
}

impl From<NameFault> for Error {
    ghost from_gives = { λ fault error. error ≡ BadName fault.at };

    fn from(fault: NameFault) -> Self {
        Error::BadName { at: fault.at }
    }
}

// A mark for each byte: 1 where a name may hold it. The law `tabulated` is about these numbers.
static MARKS: [u8; 256] = [
    0, // 0x00
    0, 0, 0, 0, 0, 0, 0, 0, 0, 0, 0, 0, 0, 0, 0, 0, 0, 0, 0, 0, 0, 0, 0, 0, 0, 0, 0, 0, 0, 0, 0, 0,
    1, // 0x21, `!`
    1, 1, 1, 1, 1, 1, 1, 1, 1, 1, 1, 1, 1, 0, // 0x2F, `/`
    1, 1, 1, 1, 1, 1, 1, 1, 1, 1, 0, // 0x3A, `:`
    1, 1, 0, // 0x3D, `=`
    1, 1, 0, // 0x40, `@`
    0, // 0x41, `A`
    0, 0, 0, 0, 0, 0, 0, 0, 0, 0, 0, 0, 0, 0, 0, 0, 0, 0, 0, 0, 0, 0, 0, 0, 0, // 0x5A, `Z`
    0, // 0x5B, `[`
    0, // 0x5C, `\`
    0, // 0x5D, `]`
    1, 1, 1, 1, // 0x61, `a`
    1, 1, 1, 1, 1, 1, 1, 1, 1, 1, 1, 1, 1, 1, 1, 1, 1, 1, 1, 1, 1, 1, 1, 1, 1, // 0x7A, `z`
    1, 1, 1, 1, // 0x7E, `~`
    0, // 0x7F
    0, 0, 0, 0, 0, 0, 0, 0, 0, 0, 0, 0, 0, 0, 0, 0, 0, 0, 0, 0, 0, 0, 0, 0, 0, 0, 0, 0, 0, 0, 0, 0,
    0, 0, 0, 0, 0, 0, 0, 0, 0, 0, 0, 0, 0, 0, 0, 0, 0, 0, 0, 0, 0, 0, 0, 0, 0, 0, 0, 0, 0, 0, 0, 0,
    0, 0, 0, 0, 0, 0, 0, 0, 0, 0, 0, 0, 0, 0, 0, 0, 0, 0, 0, 0, 0, 0, 0, 0, 0, 0, 0, 0, 0, 0, 0, 0,
    0, 0, 0, 0, 0, 0, 0, 0, 0, 0, 0, 0, 0, 0, 0, 0, 0, 0, 0, 0, 0, 0, 0, 0, 0, 0, 0, 0, 0, 0, 0, 0, // 0xFF
];

// Whether a name may hold the byte.
pub fn name_byte(b: u8) -> bool
    ensures { result ≡ name_byte b }
{
    MARKS[usize::from(b)] == 1
}

// The index of the first byte that a name may not hold.
fn first_wrong(s: &[u8]) -> Option<usize>
    ensures { result ≡ position (λ b. not (name_byte b)) s.now }
{
    s.iter().position(|b| !name_byte(*b))
}

// The offset of the first byte from `from` on that a name may not hold, or the end.
pub fn name_end(s: &[u8], from: usize) -> usize
    ensures { result ≡ from + allowed_ahead (drop from s.now) }
{
    match s.get(from..) {
        None => from,
        Some(rest) => from + first_wrong(rest).unwrap_or(rest.len()),
    }
}

// The check of a name by the allowed bytes at its start; `whole`: it has no other byte, which no number of bytes tells.
pub fn check_by_allowed(allowed: usize, whole: bool) -> Result<(), NameFault>
    ensures { result ≡ check_by_allowed allowed whole }
{
    if 31 < allowed {
        return Err(NameFault { at: 31 });
    }
    if allowed == 0 {
        return Err(NameFault { at: 0 });
    }
    if whole {
        return Ok(());
    }
    Err(NameFault { at: allowed })
}

// Whether a name keeps the rule, and if not, where it breaks it first.
pub fn check(name: &[u8]) -> Result<(), NameFault>
    ensures { result ≡ name_check name.now }
{
    let end = name_end(name, 0);
    check_by_allowed(end, name.len() <= end)
}
