// The header of a partition, its checksum and its rules.
#![tactic(auto)]

ghost use Rattle.std.specs.Prelude.{◌≡◌, ℕ, ◌+◌, ◌*◌, ◌/◌, ◌%◌, ◌≤◌, ◌<◌, length as len, take, drop, get_or, sum, MatchOption};
ghost use Rattle.lists.specs.Bytes.{AllBytes};
ghost use Rattle.header.specs.Checksum.{sumcheck, fold};
ghost use Rattle.header.specs.Header.{bytes_of, byte_at, header_at, covered_bytes, fits_header, new_header, first_broken, validity_of, validity_at, validity_answer};

use errors::{Answer, Error, HeaderFault};
use std::array;

// A length in blocks, as a header holds it.
#[derive(Clone, Copy, Default)]
pub struct Blocks(pub u32);

// A length in bytes.
#[derive(Clone, Copy)]
pub struct Bytes(pub usize);

impl Blocks {
    // The one place where blocks become bytes.
    pub fn bytes(self) -> Bytes
        ensures { result ≡ bytes_of self }
    {
        Bytes(self.0 as usize * Header::BLOCK)
    }

    // The length of these two bytes, the high one first.
    fn of_bytes(high: u8, low: u8) -> Self
        ensures { result.0 ≡ high * 256 + low }
    {
        Blocks(u32::from(u16::from_be_bytes([high, low])))
    }

    // Whether a header can hold the length: its two bytes, and no length of zero.
    #[tactic(auto, unfolding(crate::specs::Header::fits_header))]
    pub fn fits_header(self) -> bool
        ensures { result ≡ fits_header self }
    {
        1 <= self.0 && self.0 <= Header::MAX_LENGTH
    }
}

// The 16 bytes at the start of a partition.
#[derive(Clone, Copy)]
pub struct Header {
    pub signature: u8,
    pub checksum: u8,
    pub length: Blocks,
    pub name: [u8; 12],
}

impl Header {
    // The bytes of a block.
    pub const BLOCK: usize = 16;
    // The bytes of a header.
    pub const SIZE: usize = 16;
    // Where the name stands in a header.
    pub const NAME_OFFSET: usize = 4;
    // The greatest length in blocks.
    pub const MAX_LENGTH: u32 = 65535;

    // The header of these fields, with the checksum that is right for them: an error where no header can hold the length, with
    // the header all the same.
    pub fn new(signature: u8, length: Blocks, name: [u8; 12]) -> Result<Self, Self>
        ensures { result ≡ new_header signature length name }
    {
        let blank = Header {
            signature,
            checksum: 0,
            length,
            name,
        };
        let header = Header {
            checksum: blank.computed_checksum(),
            ..blank
        };
        if length.fits_header() {
            Ok(header)
        } else {
            Err(header)
        }
    }

    // The header that stands at an offset of an image; bytes past the image's end count as 0.
    pub fn read(image: &[u8], at: usize) -> Self
        ensures { result ≡ header_at image.now at }
    {
        match whole_header(image, at) {
            Some(bytes) => Header::of_bytes(bytes),
            None => Header::of_bytes(&cut_off(image, at)),
        }
    }

    // The header of its 16 bytes.
    fn of_bytes(bytes: &[u8; 16]) -> Self
        ensures { result ≡ header_at bytes.now 0 }
    {
        Header {
            signature: bytes[0],
            checksum: bytes[1],
            length: Blocks::of_bytes(bytes[2], bytes[3]),
            name: *bytes.last_chunk().unwrap(),
        }
    }

    // The signature of the header at an offset.
    pub fn signature_at(image: &[u8], at: usize) -> u8
        ensures { result ≡ (header_at image.now at).signature }
    {
        byte(image, at, 0)
    }

    // The length of the header at an offset.
    pub fn length_at(image: &[u8], at: usize) -> Blocks
        ensures { result ≡ (header_at image.now at).length }
    {
        Blocks::of_bytes(byte(image, at, 2), byte(image, at, 3))
    }

    // The first rule that the header at an offset breaks; one that is cut off breaks 2 or 3, whatever its checksum.
    pub fn check_at(image: &[u8], at: usize) -> Result<(), Error>
        ensures { result ≡ validity_at image.now at }
    {
        let room = image.len().saturating_sub(at);
        match whole_header(image, at) {
            Some(bytes) => {
                let length = Blocks::of_bytes(bytes[2], bytes[3]);
                let computed = checksum_of_whole(bytes);
                first_broken(length, bytes[1], computed, at, room)
            }
            None => first_broken(Header::length_at(image, at), 0, 0, at, room),
        }
    }

    // What a caller sees of the header at an offset: code 0, or that of the first rule that it breaks, and its offset.
    pub fn answer_at(image: &[u8], at: usize) -> Answer<()>
        ensures { result ≡ validity_answer (validity_at image.now at) }
    {
        Header::check_at(image, at).into()
    }

    // The checksum of the 15 bytes of signature, length and name.
    pub fn computed_checksum(self) -> u8
        ensures { result ≡ sumcheck (covered_bytes self) }
    {
        checksum_of(self.signature, self.length, sum_bytes(&self.name))
    }

    // The first rule that the header breaks, where it stands at an offset with so many bytes of the image left.
    pub fn check(self, at: usize, room: usize) -> Result<(), Error>
        ensures { result ≡ validity_of self at room }
    {
        first_broken(
            self.length,
            self.checksum,
            self.computed_checksum(),
            at,
            room,
        )
    }
}

// The first broken rule in the order 2, 3, 4.
fn first_broken(
    blocks: Blocks,
    stored: u8,
    computed: u8,
    at: usize,
    room: usize,
) -> Result<(), Error>
    ensures { result ≡ first_broken blocks stored computed at room }
{
    // Compared before the other tests, since the compiler then adds covered bytes as a vector.
    let differs = stored != computed;
    if blocks.0 == 0 {
        let fault = HeaderFault::ZeroLength;
        return Err(Error::BadHeader { fault, at });
    }
    let bytes = blocks.bytes();
    if room < bytes.0 {
        let fault = HeaderFault::PastEnd;
        return Err(Error::BadHeader { fault, at });
    }
    if differs {
        let fault = HeaderFault::Checksum;
        return Err(Error::BadHeader { fault, at });
    }
    Ok(())
}

// The byte k places after an offset, 0 past the image's end.
fn byte(image: &[u8], at: usize, k: usize) -> u8
    ensures { result ≡ byte_at image.now at k }
{
    match image.get(at..) {
        Some(rest) => rest.get(k).copied().unwrap_or(0),
        None => 0,
    }
}

// The 16 bytes of a whole header, none where it is cut off.
fn whole_header(image: &[u8], at: usize) -> Option<&[u8; 16]>
    ensures { MatchOption result (len image.now < at + 16) (λ bytes. (at + 16 ≤ len image.now) × (bytes.now ≡ take 16 (drop at image.now))) }
{
    image.get(at..)?.first_chunk()
}

// The 16 bytes of a header that may be cut off; out of line, so that those of a whole one stay together.
#[inline(never)]
fn cut_off(image: &[u8], at: usize) -> [u8; 16]
    ensures { (k : ℕ) → k < 16 → get_or result k 0 ≡ byte_at image.now at k }
{
    array::from_fn(|k| byte(image, at, k))
}

// The plain sum of at most 16 bytes.
fn sum_bytes(bytes: &[u8]) -> u32
    requires { len bytes.now ≤ 16 }
    ensures value { result ≡ sum bytes.now }
    ensures bytes { AllBytes bytes.now }
{
    bytes.iter().map(|b| u32::from(*b)).sum()
}

// What stands above the low byte of a number, its carries, is added to that byte.
fn fold(total: u32) -> u32
    ensures { result ≡ fold total }
{
    total % 256 + total / 256
}

// Two folds of the plain sum of some bytes: the first may leave a carry, the second leaves none.
fn fold_twice(total: u32) -> u8
    requires { total < 65536 }
    ensures { result ≡ fold (fold total) }
{
    let once = fold(total);
    let twice = fold(once);
    twice as u8
}

// The checksum of a signature, a length and a name whose bytes have this plain sum.
fn checksum_of(signature: u8, length: Blocks, name: u32) -> u8
    requires { name ≤ 4080 }
    ensures { result ≡ fold (fold (name + signature + length.0 / 256 % 256 + length.0 % 256)) }
{
    let blocks = length.0;
    fold_twice(name + u32::from(signature) + blocks / 256 % 256 + blocks % 256)
}

// The checksum that is right for a whole header: of all its bytes but the stored checksum.
fn checksum_of_whole(bytes: &[u8; 16]) -> u8
    ensures { result ≡ sumcheck (covered_bytes (header_at bytes.now 0)) }
{
    fold_twice(sum_bytes(bytes) - u32::from(bytes[1]))
}
