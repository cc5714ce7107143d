// Lists the partitions of an image that is read from standard input.
#![tactic(auto)]

ghost use Rattle.std.specs.Prelude.{◌≡◌, ◌<◌, ◌≤◌, IfOk, length, take};
ghost use Rattle.std.specs.Io.KnownBytes.{Consumes, IsAtEnd};

use std::io;
use std::io::Read;

// Room for the longest image and one byte more, by which a longer one is told.
const IMAGE_ROOM: usize = 65537;

// Room for the longest listing.
const TEXT_ROOM: usize = 131072;

fn main(rt: HostRuntime) -> io::Result<()> {
    let mut image = [0; IMAGE_ROOM];
    let mut text = [0; TEXT_ROOM];
    let n = read_full(&mut rt.stdin(), &mut image)?;
    // A listing always has room: `text-fits` of the crate listing.
    let Ok(length) = listing::listing(&image[..n], &mut text) else {
        return Ok(());
    };
    rt.write_all(&text[..length])
}

// Reads until the buffer is full or the input ends: how many bytes stand at its start.
// Of std, `read_exact` refuses an input that ends, and `read_to_end` fills a `Vec`, on the heap.
fn read_full<R: Read>(input: &mut R, buffer: &mut [u8]) -> io::Result<usize>
    ensures bound { IfOk result (λ n. n ≤ length buffer.new) }
    ensures bytes { IfOk result (λ n. Consumes (R.remaining input.old) (R.remaining input.new) (take n buffer.new)) }
    ensures full_or_end { IfOk result (λ n. n < length buffer.new → IsAtEnd (R.remaining input.new)) }
{
    let mut done = 0;
    while done < buffer.len() {
        match input.read(&mut buffer[done..])? {
            0 => break,
            n => done += n,
        }
    }
    Ok(done)
}
