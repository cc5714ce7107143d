// Every call on an image.
#![tactic(auto)]

ghost use Rattle.std.specs.Prelude.{◌≡◌, ◌+◌, ◌<◌, ◌^◌};
ghost use Rattle.names.specs.Name.{name_check};
ghost use Rattle.variables.specs.Calls as Calls;
ghost use Rattle.nvram.specs.Common.{common_of};
ghost use Rattle.nvram.specs.Calls.{count_told, read_told, edit_told, call_image};
ghost use Rattle.nvram.specs.Helpers.{area_span, named_span, error_offset, answer_moved};

use errors::Error;
use header::Header;

// Checks an image: the number of partitions that cover it, or why it is refused.
pub use partitions::check;

// The partition of an index from 0, in image order.
pub use partitions::by_index as partition;

// The first partition of this signature and name.
pub use lookup::find;

// Its data area as a part of the image.
pub use lookup::area;

// The signature of the partition that holds the variables.
const SIGNATURE: u8 = 0x70;

// Where the variable area stands in an image. A `Range` is moved by the slice that it picks, and the start is needed after that.
#[derive(Clone, Copy)]
struct Span {
    start: usize,
    end: usize,
}

// Where the variable area stands: in the only partition `common`.
fn common_area(image: &[u8]) -> Result<Span, Error>
    ensures { result ≡ area_span (common_of image.now) }
{
    let p = lookup::find_only(image, SIGNATURE, b"common")?;
    let bytes = p.blocks.bytes();
    Ok(Span {
        start: p.offset + Header::SIZE,
        end: p.offset + bytes.0,
    })
}

// The same for a call that takes a name: a bad one goes before an error of the image.
fn named_area(image: &[u8], name: &[u8]) -> Result<Span, Error>
    ensures { result ≡ named_span (name_check name.now) (common_of image.now) }
{
    match common_area(image) {
        Ok(area) => Ok(area),
        Err(e) => {
            names::check(name)?;
            Err(e)
        }
    }
}

// An answer of a call on an area that begins at `by`: a fault of the area has its offset in the image, any other error stays.
fn moved<T: Drop>(answer: Result<T, Error>, by: usize) -> Result<T, Error>
    requires { by + error_offset answer < 2 ^ 64 }
    ensures { result ≡ answer_moved by answer }
{
    match answer {
        Err(Error::BadArea { fault, at }) => Err(Error::BadArea { fault, at: by + at }),
        other => other,
    }
}

// The number of variables.
pub fn count(image: &[u8]) -> Result<usize, Error>
    ensures { count_told result ≡ (call_image Calls.count image.now).told }
{
    let area = common_area(image)?;
    moved(variables::count(&image[area.start..area.end]), area.start)
}

// Reads a variable into a buffer: the length of its value, which stands at the buffer's start.
pub fn read(image: &[u8], name: &[u8], buffer: &mut [u8]) -> Result<usize, Error>
    ensures { read_told result buffer.new ≡ (call_image (Calls.read name.now buffer.old) image.now).told }
{
    let area = named_area(image, name)?;
    moved(
        variables::read(&image[area.start..area.end], name, buffer),
        area.start,
    )
}

// Sets a variable: its pair is replaced where it stands, or added after the last.
pub fn set(image: &mut [u8], name: &[u8], value: &[u8]) -> Result<(), Error>
    ensures result_value { edit_told result ≡ (call_image (Calls.set name.now value.now) image.old).told }
    ensures image_after { image.new ≡ (call_image (Calls.set name.now value.now) image.old).image }
{
    let area = named_area(image, name)?;
    let answer = edits::set(&mut image[area.start..area.end], name, value);
    moved(answer, area.start)
}

// Removes a variable: its pair is taken out, and the pairs after it close up.
pub fn remove(image: &mut [u8], name: &[u8]) -> Result<(), Error>
    ensures result_value { edit_told result ≡ (call_image (Calls.remove name.now) image.old).told }
    ensures image_after { image.new ≡ (call_image (Calls.remove name.now) image.old).image }
{
    let area = named_area(image, name)?;
    let answer = edits::remove(&mut image[area.start..area.end], name);
    moved(answer, area.start)
}

// Makes every value canonical, and zeroes what follows the pairs.
pub fn normalize(image: &mut [u8]) -> Result<(), Error>
    ensures result_value { edit_told result ≡ (call_image Calls.normalize image.old).told }
    ensures image_after { image.new ≡ (call_image Calls.normalize image.old).image }
{
    let area = common_area(image)?; // there is no name to check
    let answer = normalization::normalize(&mut image[area.start..area.end]);
    moved(answer, area.start)
}
