// The C boundary: each function returns the code, 0 where the call is done, and stores its outputs.
// All but the listing store an offset; the other outputs are 0 with every code from 1 up. C has no Result and
// no generic function: hence the numbers, and functions of the same shape.
#![tactic(auto)]

ghost use Rattle.std.specs.Prelude.{◌≡◌};
ghost use Rattle.variables.specs.Calls.{set, remove, normalize, read, count};
ghost use Rattle.demands.specs.Requests.{variable, check, partition, find};
ghost use Rattle.demands.specs.Library.{seen};
ghost use Rattle.listing.specs.Listed.{seen_listing};

use errors::Answer;

// Checks an image: the number of partitions that cover it.
#[unsafe(no_mangle)]
pub extern "C" fn nvram_check(image: &[u8], offset: &mut usize, partitions: &mut usize) -> u32
    ensures value { result ≡ (seen check image.now).code }
    ensures offset_after { offset.new ≡ (seen check image.now).offset }
    ensures partitions_after { partitions.new ≡ (seen check image.now).amount }
{
    let checked = Answer::from(nvram::check(image));
    *offset = checked.offset;
    *partitions = checked.value;
    checked.code
}

// The partition of an index from 0: the offset of its header, its length in blocks and its signature.
#[unsafe(no_mangle)]
pub extern "C" fn nvram_partition(
    image: &[u8],
    index: usize,
    offset: &mut usize,
    header: &mut usize,
    blocks: &mut usize,
    signature: &mut u8,
) -> u32
    ensures value { result ≡ (seen (partition index) image.now).code }
    ensures offset_after { offset.new ≡ (seen (partition index) image.now).offset }
    ensures header_after { header.new ≡ (seen (partition index) image.now).header }
    ensures blocks_after { blocks.new ≡ (seen (partition index) image.now).blocks }
    ensures signature_after { signature.new ≡ (seen (partition index) image.now).signature }
{
    let indexed = Answer::from(nvram::partition(image, index));
    *offset = indexed.offset;
    *header = indexed.value.offset;
    *blocks = indexed.value.blocks.0 as usize;
    *signature = indexed.value.signature;
    indexed.code
}

// The first partition of this signature and name: the offset of its header and its length in blocks.
#[unsafe(no_mangle)]
pub extern "C" fn nvram_find(
    image: &[u8],
    signature: u8,
    name: &[u8],
    offset: &mut usize,
    header: &mut usize,
    blocks: &mut usize,
) -> u32
    ensures value { result ≡ (seen (find signature name.now) image.now).code }
    ensures offset_after { offset.new ≡ (seen (find signature name.now) image.now).offset }
    ensures header_after { header.new ≡ (seen (find signature name.now) image.now).header }
    ensures blocks_after { blocks.new ≡ (seen (find signature name.now) image.now).blocks }
{
    let found = Answer::from(nvram::find(image, signature, name));
    *offset = found.offset;
    *header = found.value.offset;
    *blocks = found.value.blocks.0 as usize;
    found.code
}

// The number of variables.
#[unsafe(no_mangle)]
pub extern "C" fn nvram_count(image: &[u8], offset: &mut usize, variables: &mut usize) -> u32
    ensures value { result ≡ (seen (variable count) image.now).code }
    ensures offset_after { offset.new ≡ (seen (variable count) image.now).offset }
    ensures variables_after { variables.new ≡ (seen (variable count) image.now).amount }
{
    let counted = Answer::from(nvram::count(image));
    *offset = counted.offset;
    *variables = counted.value;
    counted.code
}

// Reads a variable into a buffer: the length of its value, which stands at the buffer's start.
#[unsafe(no_mangle)]
pub extern "C" fn nvram_read(
    image: &[u8],
    name: &[u8],
    buffer: &mut [u8],
    offset: &mut usize,
    length: &mut usize,
) -> u32
    ensures value { result ≡ (seen (variable (read name.now buffer.old)) image.now).code }
    ensures offset_after { offset.new ≡ (seen (variable (read name.now buffer.old)) image.now).offset }
    ensures length_after { length.new ≡ (seen (variable (read name.now buffer.old)) image.now).amount }
    ensures buffer_after { buffer.new ≡ (seen (variable (read name.now buffer.old)) image.now).buffer }
{
    let reading = Answer::from(nvram::read(image, name, buffer));
    *offset = reading.offset;
    *length = reading.value;
    reading.code
}

// Sets a variable: its pair is replaced where it stands, or added after the last.
#[unsafe(no_mangle)]
pub extern "C" fn nvram_set(image: &mut [u8], name: &[u8], value: &[u8], offset: &mut usize) -> u32
    ensures value { result ≡ (seen (variable (set name.now value.now)) image.old).code }
    ensures offset_after { offset.new ≡ (seen (variable (set name.now value.now)) image.old).offset }
    ensures image_after { image.new ≡ (seen (variable (set name.now value.now)) image.old).image }
{
    let edited = Answer::from(nvram::set(image, name, value));
    *offset = edited.offset;
    edited.code
}

// Removes a variable: its pair is taken out, and the pairs after it close up.
#[unsafe(no_mangle)]
pub extern "C" fn nvram_remove(image: &mut [u8], name: &[u8], offset: &mut usize) -> u32
    ensures value { result ≡ (seen (variable (remove name.now)) image.old).code }
    ensures offset_after { offset.new ≡ (seen (variable (remove name.now)) image.old).offset }
    ensures image_after { image.new ≡ (seen (variable (remove name.now)) image.old).image }
{
    let removal = Answer::from(nvram::remove(image, name));
    *offset = removal.offset;
    removal.code
}

// Makes every value canonical, and zeroes what follows the pairs.
#[unsafe(no_mangle)]
pub extern "C" fn nvram_normalize(image: &mut [u8], offset: &mut usize) -> u32
    ensures value { result ≡ (seen (variable normalize) image.old).code }
    ensures offset_after { offset.new ≡ (seen (variable normalize) image.old).offset }
    ensures image_after { image.new ≡ (seen (variable normalize) image.old).image }
{
    let normal = Answer::from(nvram::normalize(image));
    *offset = normal.offset;
    normal.code
}

// Writes the listing of an image to the buffer's start: its length, or 14 and nothing written where it has no room.
#[unsafe(no_mangle)]
pub extern "C" fn nvram_listing(image: &[u8], text: &mut [u8], length: &mut usize) -> u32
    ensures value { result ≡ (seen_listing image.now text.old).code }
    ensures length_after { length.new ≡ (seen_listing image.now text.old).amount }
    ensures text_after { text.new ≡ (seen_listing image.now text.old).buffer }
{
    let listed = Answer::from(listing::listing(image, text));
    *length = listed.value;
    listed.code
}
