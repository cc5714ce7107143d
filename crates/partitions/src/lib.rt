// The partitions of an image: a walk by steps, the image check, and a partition by its index.
#![tactic(auto)]

ghost use Rattle.std.specs.Prelude.{◌≡◌};
ghost use Rattle.partitions.specs.Walk.{allowed_length, step_at};
ghost use Rattle.partitions.specs.Find.{check_of, index_of};
ghost use Rattle.partitions.specs.Views.{step_answer};

use errors::{Answer, Error};
use header::{Blocks, Header};

// The greatest length of an image in bytes: 65,536 blocks.
const MAX_IMAGE: usize = 1048576;

// A partition, by the offset of its header; its name is read from the image.
#[derive(Clone, Copy, Default)]
pub struct Partition {
    pub offset: usize,
    pub blocks: Blocks,
    pub signature: u8,
}

// Where a walk stands.
#[derive(Clone, Copy)]
pub struct Cursor {
    pub at: usize,
}

// A step of a walk: the partition here, and where the walk goes on.
#[derive(Clone, Copy)]
pub struct Step {
    pub here: Partition,
    pub next: Cursor,
}

impl Cursor {
    // A walk begins at the image's first byte.
    pub fn start() -> Self
        ensures { result ≡ record { at = 0 } }
    {
        Cursor { at: 0 }
    }

    // The step from here, none at the image's end, or the rule that the header here breaks.
    pub fn step(self, image: &[u8]) -> Result<Option<Step>, Error>
        ensures { result ≡ step_at image.now self.at }
    {
        let at = self.at;
        let n = image.len();
        if n <= at {
            return Ok(None);
        }
        Header::check_at(image, at)?;
        let blocks = Header::length_at(image, at);
        let bytes = blocks.bytes();
        let signature = Header::signature_at(image, at);
        let here = Partition {
            offset: at,
            blocks,
            signature,
        };
        let next = Cursor { at: at + bytes.0 };
        Ok(Some(Step { here, next }))
    }

    // What a caller sees of the step from here: code 0 and the step, none at the end, or the error's code and offset.
    pub fn answer(self, image: &[u8]) -> Answer<Option<Step>>
        ensures { result ≡ step_answer (step_at image.now self.at) }
    {
        self.step(image).into()
    }
}

// Whether an image may have this length.
#[tactic(auto, unfolding(crate::specs::Walk::allowed_length))]
pub fn allowed_length(n: usize) -> bool
    ensures { result ≡ allowed_length n }
{
    n % Header::BLOCK == 0 && (Header::BLOCK <= n && n <= MAX_IMAGE)
}

// The image check: the partitions that cover the image are counted.
pub fn check(image: &[u8]) -> Result<usize, Error>
    ensures { result ≡ check_of image.now }
{
    if !allowed_length(image.len()) {
        return Err(Error::ImageLength);
    }
    let mut cursor = Cursor::start();
    let mut count: usize = 0;
    // The paper names this form of a walk: a cursor by value, and a loop that yields its answer by a break.
    loop {
        match cursor.step(image) {
            Ok(Some(step)) => {
                cursor = step.next;
                count += 1;
            }
            Ok(None) => break Ok(count),
            Err(e) => break Err(e),
        }
    }
}

// The partition of an index from 0, in image order.
pub fn by_index(image: &[u8], index: usize) -> Result<Partition, Error>
    ensures { result ≡ index_of image.now index }
{
    if !allowed_length(image.len()) {
        return Err(Error::ImageLength);
    }
    let mut cursor = Cursor::start();
    let mut left = index;
    let mut found = None;
    // The form of a walk that the paper names.
    loop {
        match cursor.step(image) {
            Ok(Some(step)) => {
                cursor = step.next;
                if left == 0 {
                    found = found.or(Some(step.here));
                } else {
                    left -= 1;
                }
            }
            Ok(None) => break found.ok_or(Error::NoPartition),
            Err(e) => break Err(e),
        }
    }
}
