// Runs example 12, fills the greatest partition to its last byte, and tries it with a second `common` behind it; prints what the
// library answers.
#![tactic(auto)]

ghost use Rattle.std.specs.Prelude.{◌≡◌, length};

use errors::{Answer, Error};
use header::{Blocks, Header};
use std::io;

// The greatest image: 65,536 blocks.
const BLOCKS: u32 = 65536;

// The signatures of the partition that holds the variables, and of a free partition.
const COMMON: u8 = 0x70;

const FREE: u8 = 0x7F;

fn main(rt: HostRuntime) -> io::Result<()> {
    let mut image = blank_image();
    put_header(&mut image, 0, COMMON, 4096);
    area_of(&rt, &image, 4096)?;
    put_header(&mut image, 0, COMMON, Header::MAX_LENGTH);
    area_of(&rt, &image, Header::MAX_LENGTH)?;
    write_check(&rt, &image, b"65535 blocks and a zero block: ")?;
    put_header(&mut image, 1048560, COMMON, 1);
    write_check(&rt, &image, b"65535 and 1 blocks: ")?;
    let mut value = blank_image();
    set_first(&rt, &mut image, &value, 0)?;
    put_header(&mut image, 1048560, FREE, 1);
    fill_and_read(&rt, &mut image, &mut value)?;
    put_header(&mut image, 0, COMMON, BLOCKS);
    write_check(&rt, &image, b"65536 blocks in one header: ")
}

// The greatest image, all zero; a function of its own, since a proof reads so long a literal slowly where it is lent.
fn blank_image() -> [u8; 1048576]
    ensures { 1048576 ≡ length result }
{
    [0; 1048576]
}

// Writes the header of a partition of this signature, with the name `common` and so many blocks, at an offset where there is room.
fn put_header(image: &mut [u8], at: usize, signature: u8, blocks: u32) {
    let made = Header::new(signature, Blocks(blocks), *b"common\0\0\0\0\0\0");
    let (Ok(header) | Err(header)) = made; // also where no header can hold the length
    let [_, _, high, low] = blocks.to_be_bytes();
    let start = [header.signature, header.checksum, high, low];
    let Some(rest) = image.get_mut(at..) else {
        return;
    };
    if rest.len() < Header::SIZE {
        return;
    }
    rest[..Header::NAME_OFFSET].copy_from_slice(&start);
    rest[Header::NAME_OFFSET..Header::SIZE].copy_from_slice(&header.name);
}

// Writes the length of the data area of `common` in the image's first blocks.
fn area_of(rt: &impl Print, image: &[u8], blocks: u32) -> io::Result<()> {
    let Some(part) = image.get(..Blocks(blocks).bytes().0) else {
        return Ok(());
    };
    let area = lookup::area(part, COMMON, b"common");
    let Answer { code, value, .. } = area.map(|bytes| bytes.len()).into();
    println!(rt; "{blocks} blocks: code {code}, area of {value} bytes")
}

// Writes a title and the image check's answer.
fn write_check(rt: &impl Print, image: &[u8], title: &[u8]) -> io::Result<()> {
    rt.write_all(title)?;
    match partitions::check(image) {
        Ok(count) => println!(rt; "accepted, {count} partitions"),
        Err(e) => write_refused(rt, e),
    }
}

// Fills the partition of 65,535 blocks to its last byte with one variable, and reads it back.
fn fill_and_read(rt: &impl Print, image: &mut [u8], value: &mut [u8]) -> io::Result<()> {
    value.fill(85);
    set_first(rt, image, value, 1048541)?;
    set_first(rt, image, value, 1048540)?;
    value.fill(0);
    read_back(rt, image, value)
}

// Sets `a` to the first n bytes of a slice, and writes the answer.
fn set_first(rt: &impl Print, image: &mut [u8], value: &[u8], n: usize) -> io::Result<()> {
    let Some(part) = value.get(..n) else {
        return Ok(());
    };
    print!(rt; "a value of {n} bytes: ")?;
    match nvram::set(image, b"a", part) {
        Ok(()) => println!(rt; "set"),
        Err(e) => write_refused(rt, e),
    }
}

// Reads `a`, and writes how many of its bytes are as they were set.
fn read_back(rt: &impl Print, image: &[u8], value: &mut [u8]) -> io::Result<()> {
    match nvram::read(image, b"a", value) {
        Ok(n) => {
            let count = value.iter().take_while(|x| **x == 85).count();
            println!(rt; "{n} bytes read back, {count} of them as set")
        }
        Err(e) => write_refused(rt, e),
    }
}

// Writes a refusal.
fn write_refused(rt: &impl Print, e: Error) -> io::Result<()> {
    let code = e.code();
    let offset = e.offset();
    println!(rt; "refused {code} at {offset}")
}
