// Values: what stored bytes stand for, and how they are decoded.
#![tactic(auto)]

ghost use Rattle.std.specs.Prelude.{◌≡◌, ◌+◌, ◌≤◌, ◌++◌, length};
ghost use Rattle.lists.specs.Pasted.{pasted, written_in};
ghost use Rattle.values.specs.Value.{run_byte, decode_from, decode, written_of};
ghost use Rattle.values.specs.Helpers.{opened, first_stop, next_stop};

// The offset up to which bytes are taken one by one before a long piece is looked for: at the start at once, unless there are few bytes.
#[tactic(auto, unfolding(crate::specs::Helpers::first_stop))]
pub fn first_stop(len: usize) -> usize
    ensures { result ≡ first_stop len }
{
    if len < 16 { len } else { 0 }
}

// The next such offset, after `from`: where there is one escape there are often more.
#[tactic(auto, unfolding(crate::specs::Helpers::next_stop))]
pub fn next_stop(from: usize, len: usize) -> usize
    ensures { result ≡ next_stop from len }
{
    if len <= from {
        return len;
    }
    if len - from < 128 { len } else { from + 128 }
}

// The byte that an escape repeats, by its second byte.
#[tactic(auto, unfolding(crate::specs::Value::run_byte))]
pub fn run_byte(c: u8) -> u8
    ensures { result ≡ run_byte c }
{
    if c < 128 { 0 } else { 255 }
}

// The longest plain piece that stored bytes begin with, and the rest; none is looked for after an escape's 0xFF or in few bytes.
// Bytes and `after` go together through three functions: a struct of the two would be made and taken apart in each.
fn split_plain(stored: &[u8], after: bool) -> (&[u8], &[u8])
    ensures rest_left { length stored.now ≡ length result.0.now + length result.1.now }
    ensures plain { decode_from after stored.now ≡ result.0.now ++ decode_from after result.1.now }
    ensures opened_after { opened after stored.now ≡ opened after result.1.now }
{
    if after || first_stop(stored.len()) != 0 {
        return stored.split_at(0);
    }
    stored.split_at(lists::find_either(stored, 0, 255, 255))
}

// The length of what a few bytes stand for, and whether an escape's 0xFF ends them; after: one stands before them. The length holds
// either way, so that the flag is no sign of a failure.
fn few_len(bytes: &[u8], after: bool) -> (usize, bool)
    requires { length bytes.now ≤ 128 }
    ensures len { result.0 ≡ length (decode_from after bytes.now) }
    ensures opened_after { result.1 ≡ opened after bytes.now }
{
    let mut n = 0;
    let mut open = after;
    for &b in bytes {
        if open {
            n += usize::from(b % 128);
            open = false;
        } else if b == 255 {
            open = true;
        } else {
            n += 1;
        }
    }
    (n, open)
}

// The length of the value that is stored so, if that is at most `room`.
pub fn decoded_len(stored: &[u8], room: usize) -> Option<usize>
    ensures { result ≡ written_of (decode stored.now) room }
{
    let mut rest = stored;
    let mut after = false;
    let mut n = 0;
    while !rest.is_empty() {
        let (plain, tail) = split_plain(rest, after);
        if room - n < plain.len() {
            return None;
        }
        n += plain.len();
        let (few, tail) = tail.split_at(next_stop(0, tail.len()));
        let (k, open) = few_len(few, after);
        if room - n < k {
            return None;
        }
        n += k;
        rest = tail;
        after = open;
    }
    Some(n)
}

// Writes what a few bytes stand for at the start of the buffer: its length, and whether an escape's 0xFF ends the bytes, as few_len
// answers them; after: one stands before them.
fn decode_few(bytes: &[u8], after: bool, buffer: &mut [u8]) -> (usize, bool)
    requires { length (decode_from after bytes.now) ≤ length buffer.old }
    ensures len { result.0 ≡ length (decode_from after bytes.now) }
    ensures opened_after { result.1 ≡ opened after bytes.now }
    ensures buffer_after { buffer.new ≡ pasted buffer.old 0 (decode_from after bytes.now) }
{
    let mut put = 0;
    let mut open = after;
    for &b in bytes {
        if open {
            let end = put + usize::from(b % 128);
            lists::fill(&mut buffer[put..end], run_byte(b));
            put = end;
            open = false;
        } else if b == 255 {
            open = true;
        } else {
            buffer[put] = b;
            put += 1;
        }
    }
    (put, open)
}

// Writes the value that is stored so at the start of the buffer, which has room for it.
// It walks as decoded_len does, which stops where the room ends: one walk over a trait would ask this one for a room that it does not need.
fn decode_to(stored: &[u8], buffer: &mut [u8])
    requires { length (decode stored.now) ≤ length buffer.old }
    ensures { buffer.new ≡ pasted buffer.old 0 (decode stored.now) }
{
    let mut rest = stored;
    let mut after = false;
    let mut put = 0;
    while !rest.is_empty() {
        let (plain, tail) = split_plain(rest, after);
        lists::copy(plain, &mut buffer[put..]);
        put += plain.len();
        let (few, tail) = tail.split_at(next_stop(0, tail.len()));
        let (k, open) = decode_few(few, after, &mut buffer[put..]);
        put += k;
        rest = tail;
        after = open;
    }
}

// Writes the value that is stored so at the start of the buffer, and answers its length; none where there is no room for all of it.
pub fn decode(stored: &[u8], buffer: &mut [u8]) -> Option<usize>
    ensures value { result ≡ written_of (decode stored.now) (length buffer.old) }
    ensures buffer_after { buffer.new ≡ written_in (decode stored.now) buffer.old }
{
    let n = decoded_len(stored, buffer.len())?;
    decode_to(stored, buffer);
    Some(n)
}
