// The canonical form of a value: made from the value, or from a stored one in its place.
#![tactic(auto)]

ghost use Rattle.std.specs.Prelude.{◌≡◌, [], ◌∷◌, ◌+◌, ◌≤◌, length, take, true};
ghost use Rattle.lists.specs.Pasted.{pasted, written_in};
ghost use Rattle.lists.specs.Helpers.{until_either};
ghost use Rattle.values.specs.Value.{spelled, escaped, mark, run_bytes, encode, written_of};
ghost use Rattle.values.specs.Helpers.{recodable, recoded, recoded_of, recoded_in};
ghost use Rattle.encoding.specs.Helpers.{leading};

// The top bit of an escape's second byte, by the byte that it repeats.
#[tactic(auto, unfolding(values::specs::Value::mark))]
fn mark_of(b: u8) -> u8
    ensures { (result ≡ mark b) × (result ≤ 128) }
{
    if b == 0 { 0 } else { 128 }
}

// Whether a byte does not stand for itself.
fn is_escaped(x: u8) -> bool
    ensures { result ≡ escaped x }
{
    x == 0 || x == 255
}

// How many bytes are looked at one by one after an escape, where the next is often near.
const NEAR: usize = 16;

// How many bytes stand before the first that does not stand for itself: the nearest are looked at one by one, as many as `few`.
fn plain_len(bytes: &[u8], few: usize) -> usize
    ensures { result ≡ until_either 0 255 bytes.now }
{
    let near = bytes.len().min(few);
    for (i, x) in bytes[..near].iter().enumerate() {
        if is_escaped(*x) {
            return i;
        }
    }
    lists::find_either(bytes, near, 0, 255)
}

// Whether stored bytes stand for a value.
fn is_spelled(stored: &[u8]) -> bool
    ensures { result ≡ spelled stored.now }
{
    let mut rest = stored;
    while let Some((b, tail)) = rest.split_first() {
        if *b == 0 {
            return false;
        }
        if *b == 255 {
            let Some((c, tail)) = tail.split_first() else {
                return false;
            };
            if *c % 128 == 0 {
                return false;
            }
            rest = tail;
        } else {
            let (_, tail) = rest.split_at(plain_len(rest, NEAR));
            rest = tail;
        }
    }
    true
}

// How many bytes at the start are b.
#[tactic(auto, unfolding(crate::specs::Helpers::leading))]
fn leading(bytes: &[u8], b: u8) -> usize
    ensures { result ≡ leading b bytes.now }
{
    bytes.iter().take_while(|x| **x == b).count()
}

// The length of a run's escapes.
fn run_len(n: usize) -> usize
    ensures { result ≡ length (run_bytes 0 n) }
{
    let q = n / 127;
    if n % 127 == 0 {
        return 2 * q;
    }
    2 * q + 2
}

// Writes one escape at the start of the buffer, by its second byte.
fn put_escape(buffer: &mut [u8], c: u8)
    requires { 2 ≤ length buffer.old }
    ensures { buffer.new ≡ pasted buffer.old 0 (255 ∷ c ∷ []) }
{
    buffer[0] = 255;
    buffer[1] = c;
}

// Writes the escapes of a run of n times b at the start of the buffer, and answers their length.
fn put_run(buffer: &mut [u8], b: u8, n: usize) -> usize
    requires { length (run_bytes b n) ≤ length buffer.old }
    ensures value { result ≡ length (run_bytes b n) }
    ensures buffer_after { buffer.new ≡ pasted buffer.old 0 (run_bytes b n) }
{
    let mark = mark_of(b);
    let mut put = 0;
    for _ in 0..n / 127 {
        put_escape(&mut buffer[put..], mark + 127);
        put += 2;
    }
    let rest = n % 127;
    if rest == 0 {
        return put;
    }
    put_escape(&mut buffer[put..], mark + rest as u8);
    put + 2
}

// The length of a value's canonical form.
pub fn encoded_len(value: &[u8]) -> usize
    ensures { result ≡ length (encode value.now) }
{
    let mut rest = value;
    let mut n = 0;
    let mut few = values::first_stop(value.len());
    while let Some((x, _)) = rest.split_first() {
        if is_escaped(*x) {
            let (run, tail) = rest.split_at(leading(rest, *x));
            n += run_len(run.len());
            rest = tail;
        } else {
            let (plain, tail) = rest.split_at(plain_len(rest, few));
            n += plain.len();
            rest = tail;
        }
        few = NEAR;
    }
    n
}

// Copies the bytes before the first that does not stand for itself to the start of the buffer, and answers how many they are.
// To find their end first and then copy them in one piece takes 1.4 times as long where there is an escape every few bytes.
fn put_near(bytes: &[u8], buffer: &mut [u8]) -> usize
    requires { until_either 0 255 bytes.now ≤ length buffer.old }
    ensures value { result ≡ until_either 0 255 bytes.now }
    ensures buffer_after { buffer.new ≡ pasted buffer.old 0 (take result bytes.now) }
{
    for (i, x) in bytes.iter().enumerate() {
        if is_escaped(*x) {
            return i;
        }
        buffer[i] = *x;
    }
    bytes.len()
}

// Copies the same bytes, the nearest one by one, as many as `few`, and the others at once.
fn put_plain(bytes: &[u8], few: usize, buffer: &mut [u8]) -> usize
    requires { until_either 0 255 bytes.now ≤ length buffer.old }
    ensures value { result ≡ until_either 0 255 bytes.now }
    ensures buffer_after { buffer.new ≡ pasted buffer.old 0 (take result bytes.now) }
{
    let near = bytes.len().min(few);
    let n = put_near(&bytes[..near], buffer);
    if n < near {
        return n;
    }
    let end = lists::find_either(bytes, near, 0, 255);
    lists::copy(&bytes[near..end], &mut buffer[near..]);
    end
}

// Writes the canonical form of a value at the start of the buffer, which has room for it.
// It walks as encoded_len does, but copies plain bytes while it looks for their end, which one walk for both could not: see put_near.
fn encode_to(value: &[u8], buffer: &mut [u8])
    requires { length (encode value.now) ≤ length buffer.old }
    ensures { buffer.new ≡ pasted buffer.old 0 (encode value.now) }
{
    let mut rest = value;
    let mut put = 0;
    let mut few = values::first_stop(value.len());
    while let Some((x, _)) = rest.split_first() {
        if is_escaped(*x) {
            let (run, tail) = rest.split_at(leading(rest, *x));
            put += put_run(&mut buffer[put..], *x, run.len());
            rest = tail;
        } else {
            let (plain, tail) = rest.split_at(put_plain(rest, few, &mut buffer[put..]));
            put += plain.len();
            rest = tail;
        }
        few = NEAR;
    }
}

// Writes the canonical form of a value at the start of the buffer, and answers its length; none where there is no room for all of it.
pub fn encode(value: &[u8], buffer: &mut [u8]) -> Option<usize>
    ensures value { result ≡ written_of (encode value.now) (length buffer.old) }
    ensures buffer_after { buffer.new ≡ written_in (encode value.now) buffer.old }
{
    let n = encoded_len(value);
    if buffer.len() < n {
        return None;
    }
    encode_to(value, buffer);
    Some(n)
}

// Writes the canonical form of the value stored from `from` up to `to` at `at`, and answers the offset after it.
// A run of n times b, at most 127, is not yet written; what exceeds 127 is written at once.
// It counts offsets: the bytes left to read cannot be lent as a slice while the area that they stand in is written.
fn recode_to(area: &mut [u8], from: usize, to: usize, at: usize) -> usize
    requires { recodable area.old from to at ≡ true }
    ensures value { result ≡ at + length (recoded area.old from to) }
    ensures area_after { area.new ≡ pasted area.old at (recoded area.old from to) }
{
    let mut i = from;
    let mut o = at;
    let mut b: u8 = 0;
    let mut n: usize = 0;
    while i < to {
        if area[i] == 255 {
            i += 1;
            let c = area[i];
            i += 1;
            let y = values::run_byte(c);
            let k = usize::from(c % 128);
            if y != b {
                o += put_run(&mut area[o..], b, n);
                b = y;
                n = k;
            } else if n + k <= 127 {
                n += k;
            } else {
                put_escape(&mut area[o..], mark_of(b) + 127);
                o += 2;
                n = n + k - 127;
            }
        } else {
            let k = plain_len(&area[i..to], NEAR);
            o += put_run(&mut area[o..], b, n);
            lists::move_bytes(area, i, o, k);
            o += k;
            i += k;
            b = 0;
            n = 0;
        }
    }
    o + put_run(&mut area[o..], b, n)
}

// Makes the value stored from `from` up to `to` canonical, at `at`, which is not after it; answers its new length.
// Where the offsets are out of order or the bytes stand for no value, nothing is changed, and the answer is none.
pub fn recode(area: &mut [u8], from: usize, to: usize, at: usize) -> Option<usize>
    ensures value { result ≡ recoded_of area.old from to at }
    ensures area_after { area.new ≡ recoded_in area.old from to at }
{
    if from < at {
        return None;
    }
    if to < from {
        return None;
    }
    if area.len() < to {
        return None;
    }
    if !is_spelled(&area[from..to]) {
        return None;
    }
    let e = recode_to(area, from, to, at);
    Some(e - at)
}
