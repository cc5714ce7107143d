// Laws of lists of bytes, and the copies, moves, fills and searches that use them.
#![tactic(auto)]

ghost use Rattle.std.specs.Prelude.{◌≡◌, ◌+◌, ◌≤◌, length, take, drop, replicate, position, fold, false, ◌||◌};
ghost use Rattle.lists.specs.Pasted.{pasted};
ghost use Rattle.lists.specs.Helpers.{moved_bytes};
ghost use Rattle.lists.specs.Helpers.{either, until_either};

// Copies bytes to the start of `to`, as many as both slices have. Not by `copy_from_slice`, which calls memmove: the archive for
// C asks its user for memset alone.
pub fn copy(from: &[u8], to: &mut [u8])
    ensures { to.new ≡ pasted to.old 0 (take (length to.old) from.now) }
{
    let n = from.len().min(to.len());
    for (i, b) in from[..n].iter().enumerate() {
        to[i] = *b;
    }
}

// Writes a byte over all of a slice.
pub fn fill(s: &mut [u8], b: u8)
    ensures { s.new ≡ replicate (length s.old) b }
{
    s.fill(b);
}

// Moves the n bytes at `from` to `to`, where both lie inside the slice; they may overlap. Bytes that stay are not copied, since
// the compiler makes no vector of such a copy.
pub fn move_bytes(s: &mut [u8], from: usize, to: usize, n: usize)
    ensures { s.new ≡ moved_bytes s.old from to n }
{
    let len = s.len();
    if n <= len && from <= len - n && to <= len - n && from != to {
        s.copy_within(from..from + n, to);
    }
}

// Whether one of a chunk's bytes is b or c: all are looked at, so that they are compared at once.
fn chunk_has(chunk: &[u8], b: u8, c: u8) -> bool
    ensures { result ≡ fold (λ hit x. hit || either b c x) false chunk.now }
{
    chunk
        .iter()
        .fold(false, |hit, x| hit | (*x == b || *x == c))
}

// A number of bytes with neither b nor c among them: the chunks before the first that has one, or all whole chunks.
fn skip_chunks(s: &[u8], b: u8, c: u8) -> usize
    ensures { (result ≤ length s.now) × (until_either b c s.now ≡ result + until_either b c (drop result s.now)) }
{
    let mut skipped = 0;
    for chunk in s.chunks_exact(16) {
        if chunk_has(chunk, b, c) {
            return skipped;
        }
        skipped += chunk.len();
    }
    skipped
}

// The index of the first byte that is b or c.
fn first_either(s: &[u8], b: u8, c: u8) -> Option<usize>
    ensures { result ≡ position (either b c) s.now }
{
    s.iter().position(|x| *x == b || *x == c)
}

// The offset of the first byte from `from` on that is b or c, or the end.
pub fn find_either(s: &[u8], from: usize, b: u8, c: u8) -> usize
    ensures { result ≡ from + until_either b c (drop from s.now) }
{
    let Some(rest) = s.get(from..) else {
        return from;
    };
    let skipped = skip_chunks(rest, b, c);
    let near = &rest[skipped..];
    from + skipped + first_either(near, b, c).unwrap_or(near.len())
}
