// A partition by its signature and name, and its data area.
#![tactic(auto)]

ghost use Rattle.std.specs.Prelude.{◌≡◌, [], ◌+◌, ◌≤◌, length as len};
ghost use Rattle.header.specs.Header.{header_at};
ghost use Rattle.partition_name.specs.Name.{matches_name};
ghost use Rattle.std.specs.Result.{result_map_both};
ghost use Rattle.errors.specs.Answer.{answer_of};
ghost use Rattle.partitions.specs.Find.{find_of, only_of, area_found};
ghost use Rattle.partitions.specs.Views.{area_answer};
ghost use Rattle.lookup.specs.Helpers.{one_more_counts, with_match, matched_found, searched_found, seek_of};

use errors::Error;
use header::Header;
use partitions::{Cursor, Partition};

// Whether the name of a whole header at an offset matches this one; it is compared where it stands.
fn has_name(image: &[u8], at: usize, name: &[u8]) -> bool
    requires { at + 16 ≤ len image.now }
    ensures { result ≡ matches_name (header_at image.now at).name name.now }
{
    let start = at + Header::NAME_OFFSET;
    let end = at + Header::SIZE;
    partition_name::matches_name(&image[start..end], name)
}

// The partitions that have matched so far. Not yet a Result: a header that is broken further on goes before a second match.
#[derive(Clone, Copy)]
enum Matched {
    None,
    // The first.
    One(Partition),
    // A second one, where only one may match; its header is at this offset.
    Second { at: usize },
}

impl Matched {
    // Whether one more match counts: the first does, and a second one where only one may match.
    fn counts_one_more(self, only: bool) -> bool
        ensures { result ≡ one_more_counts only self }
    {
        match self {
            Matched::None => true,
            Matched::One(_) => only,
            Matched::Second { .. } => false,
        }
    }

    // The partitions that have matched, with one more.
    fn with(self, p: Partition) -> Self
        ensures { result ≡ with_match self p }
    {
        match self {
            Matched::None => Matched::One(p),
            Matched::One(_) => Matched::Second { at: p.offset },
            Matched::Second { at } => Matched::Second { at },
        }
    }

    // What is found where these are all that match.
    fn found(self) -> Result<Partition, Error>
        ensures { result ≡ matched_found self }
    {
        match self {
            Matched::None => Err(Error::NoPartition),
            Matched::One(p) => Ok(p),
            Matched::Second { at } => Err(Error::RepeatedPartition { at }),
        }
    }
}

// A search for this signature and a name that matches this one: what matches, for the first partition or, where ONLY, for the only
// one. Each of the two is compiled by itself, so that a search for the first has no test for a second.
fn seek<const ONLY: bool>(image: &[u8], signature: u8, name: &[u8]) -> Result<Matched, Error>
    ensures { searched_found result ≡ seek_of ONLY image.now signature name.now }
{
    if !partitions::allowed_length(image.len()) {
        return Err(Error::ImageLength);
    }
    let mut cursor = Cursor::start();
    let mut matched = Matched::None;
    // The form of a walk that the paper names.
    loop {
        match cursor.step(image) {
            Ok(Some(step)) => {
                let p = step.here;
                cursor = step.next;
                if Header::signature_at(image, p.offset) == signature
                    && matched.counts_one_more(ONLY)
                    && has_name(image, p.offset, name)
                {
                    matched = matched.with(p);
                }
            }
            Ok(None) => break Ok(matched),
            Err(e) => break Err(e),
        }
    }
}

// The first partition in image order that has this signature and a name that matches this one; the two come apart here and in the
// functions below, as callers give them.
pub fn find(image: &[u8], signature: u8, name: &[u8]) -> Result<Partition, Error>
    ensures { result ≡ find_of image.now signature name.now }
{
    seek::<false>(image, signature, name)?.found()
}

// The only partition that has this signature and a name that matches this one; where a second one has, it is refused there. It has a
// contract of its own, as `find` has, over the one search.
pub fn find_only(image: &[u8], signature: u8, name: &[u8]) -> Result<Partition, Error>
    ensures { result ≡ only_of image.now signature name.now }
{
    seek::<true>(image, signature, name)?.found()
}

// The data area of the partition that `find` answers, as a part of the image.
pub fn area<'a>(image: &'a [u8], signature: u8, name: &[u8]) -> Result<&'a [u8], Error>
    ensures found { result_map_both (λ part. part.now) (λ e. e) result ≡ area_found image.now (find_of image.now signature name.now) }
    ensures shown { answer_of [] (result_map_both (λ part. part.now) (λ e. e) result) ≡ area_answer image.now (find_of image.now signature name.now) }
{
    let p = find(image, signature, name)?;
    let bytes = p.blocks.bytes();
    let start = p.offset + Header::SIZE;
    let end = p.offset + bytes.0;
    Ok(&image[start..end])
}
