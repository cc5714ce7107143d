// The text of a listing, written into a lent buffer.
#![tactic(auto)]

ghost use Rattle.std.specs.Prelude.{◌≡◌, ◌==◌, not, [], ◌∷◌, ◌++◌, ◌+◌, ◌≤◌, ◌<◌, length};
ghost use Rattle.std.specs.List.{prefix_len};
ghost use Rattle.lists.specs.Pasted.{written_in};
ghost use Rattle.partitions.specs.Walk.{broken, walk};
ghost use Rattle.listing.specs.Text.{decimal, hex_digit, hex_byte, visible, shown_name, line, text_by, listing_text};
ghost use Rattle.listing.specs.Listed.{listed_of};
ghost use Rattle.listing.specs.Helpers.{HasRoom, Wrote, measured_of, lines_of, Covered};

use errors::Error;
use header::Header;
use partitions::{Cursor, Partition};

// An image of more bytes is too long for a listing.
const MAX_LISTED: usize = 65536;

// What the lines of an image take: the bytes of all lines, and the blocks of all partitions.
#[derive(Clone, Copy)]
struct Lines {
    bytes: usize,
    blocks: usize,
}

// The digits of a number in decimal.
fn decimal_len(n: usize) -> usize
    ensures value { result ≡ length (decimal n) }
    ensures upper_bound { result ≤ 20 }
{
    match n.checked_ilog10() {
        Some(power) => power as usize + 1,
        None => 1,
    }
}

// One hex digit, in capitals.
#[tactic(auto, unfolding(crate::specs::Text::hex_digit))]
fn hex_digit(n: u8) -> u8
    requires { n < 16 }
    ensures { result ≡ hex_digit n }
{
    match n {
        0..=9 => b'0' + n,
        _ => b'A' + (n - 10),
    }
}

// A byte of a name as it is shown.
#[tactic(auto, unfolding(crate::specs::Text::visible))]
fn visible_byte(b: u8) -> u8
    ensures { result ≡ visible b }
{
    match b {
        0x21..=0x7E => b,
        _ => b'?',
    }
}

// The bytes of a name before its first 0x00.
fn name_len(name: &[u8]) -> usize
    ensures { result ≡ prefix_len (λ b. not (b == 0)) name.now }
{
    name.iter().take_while(|b| **b != 0).count()
}

// The bytes of a partition's line: beside numbers and name three spaces, two hex digits and the end.
fn line_len(image: &[u8], p: Partition) -> usize
    ensures { result ≡ length (line image.now p) }
{
    let name = Header::read(image, p.offset).name;
    let place = decimal_len(p.offset);
    let blocks = decimal_len(p.blocks.0 as usize);
    place + blocks + name_len(&name) + 6
}

// What the lines of an image take, or the rule that it breaks.
fn measure(image: &[u8]) -> Result<Lines, Error>
    requires { length image.now ≤ 65536 }
    ensures { result ≡ measured_of image.now }
{
    partitions::check(image)?;
    let mut cursor = Cursor::start();
    let mut bytes: usize = 0;
    let mut blocks: usize = 0;
    while let Ok(Some(step)) = cursor.step(image) {
        cursor = step.next;
        bytes += line_len(image, step.here);
        blocks += step.here.blocks.0 as usize;
    }
    Ok(Lines { bytes, blocks })
}

// A text that is being written into a lent buffer, up to the offset `at`.
#[derive(Drop)]
struct Writer<'a> {
    text: &'a mut [u8],
    at: usize,
}

// Not by `write!`: each method states the bytes that it writes in the words of the rules of a listing.
impl Writer<'_> {
    // Writes a byte.
    fn put_byte(&mut self, b: u8)
        requires { HasRoom self.old 1 }
        ensures { Wrote self.old (b ∷ []) self.new }
    {
        self.text[self.at] = b;
        self.at += 1;
    }

    // Writes a piece.
    fn put(&mut self, piece: &[u8])
        requires { HasRoom self.old (length piece.now) }
        ensures { Wrote self.old piece.now self.new }
    {
        let end = self.at + piece.len();
        self.text[self.at..end].copy_from_slice(piece);
        self.at = end;
    }

    // Writes a number in decimal, the last digit first.
    fn put_decimal(&mut self, n: usize)
        requires { HasRoom self.old (length (decimal n)) }
        ensures { Wrote self.old (decimal n) self.new }
    {
        let start = self.at;
        let end = start + decimal_len(n);
        let mut left = n;
        for i in (start..end).rev() {
            self.text[i] = b'0' + (left % 10) as u8;
            left /= 10;
        }
        self.at = end;
    }

    // Writes a number in decimal and a space.
    fn put_field(&mut self, n: usize)
        requires { HasRoom self.old (length (decimal n) + 1) }
        ensures { Wrote self.old (decimal n ++ 0x20 ∷ []) self.new }
    {
        self.put_decimal(n);
        self.put_byte(b' ');
    }

    // Writes a byte in two hex digits.
    fn put_hex(&mut self, b: u8)
        requires { HasRoom self.old 2 }
        ensures { Wrote self.old (hex_byte b) self.new }
    {
        self.put_byte(hex_digit(b / 16));
        self.put_byte(hex_digit(b % 16));
    }

    // Writes a name as it is shown.
    fn put_name(&mut self, name: &[u8])
        requires { HasRoom self.old (length (shown_name name.now)) }
        ensures { Wrote self.old (shown_name name.now) self.new }
    {
        for b in name {
            if *b == 0 {
                break;
            }
            self.put_byte(visible_byte(*b));
        }
    }

    // Writes a partition's line.
    #[tactic(auto, using(crate::proofs::WordLaws::line_lengths), unfolding(crate::specs::Text::hex_byte))]
    fn put_line(&mut self, image: &[u8], p: Partition)
        requires { HasRoom self.old (length (line image.now p)) }
        ensures { Wrote self.old (line image.now p) self.new }
    {
        let name = Header::read(image, p.offset).name;
        self.put_field(p.offset);
        self.put_field(p.blocks.0 as usize);
        self.put_hex(p.signature);
        self.put_byte(b' '); // before an empty name too
        self.put_name(&name);
        self.put_byte(b'\n');
    }

    // Writes the lines of an accepted image.
    fn put_lines(&mut self, image: &[u8])
        requires covered { Covered image.now }
        requires image_in_bounds { HasRoom self.old (length (lines_of image.now)) }
        ensures { Wrote self.old (lines_of image.now) self.new }
    {
        let mut cursor = Cursor::start();
        while let Ok(Some(step)) = cursor.step(image) {
            cursor = step.next;
            self.put_line(image, step.here);
        }
    }
}

// A text of one piece.
fn list_piece(text: &mut [u8], piece: &[u8]) -> Result<usize, Error>
    ensures value { result ≡ listed_of piece.now (length text.old) }
    ensures text_after { text.new ≡ written_in piece.now text.old }
{
    if text.len() < piece.len() {
        return Err(Error::ShortBuffer);
    }
    let mut writer = Writer { text, at: 0 };
    writer.put(piece);
    Ok(writer.at)
}

// The text of a refused image.
fn list_refused(text: &mut [u8], e: Error) -> Result<usize, Error>
    ensures value { result ≡ listed_of (text_by [] (broken e)) (length text.old) }
    ensures text_after { text.new ≡ written_in (text_by [] (broken e)) text.old }
{
    let code = e.code() as usize;
    let offset = e.offset();
    let digits = decimal_len(code) + decimal_len(offset);
    if text.len() < digits + 13 {
        return Err(Error::ShortBuffer);
    }
    let mut writer = Writer { text, at: 0 };
    writer.put(b"refused ");
    writer.put_decimal(code);
    writer.put(b" at ");
    writer.put_decimal(offset);
    writer.put_byte(b'\n');
    Ok(writer.at)
}

// The text of an accepted image, of which the size of the lines is known.
#[tactic(auto, using(crate::proofs::TextLaws::measured))]
fn list_accepted(text: &mut [u8], image: &[u8], lines: Lines) -> Result<usize, Error>
    requires image_len_bound { length image.now ≤ 65536 }
    requires image_value { measured_of image.now ≡ Ok lines }
    ensures value { result ≡ listed_of (text_by image.now (walk image.now)) (length text.old) }
    ensures text_after { text.new ≡ written_in (text_by image.now (walk image.now)) text.old }
{
    let Lines { bytes, blocks } = lines;
    if text.len() < bytes + decimal_len(blocks) + 27 {
        return Err(Error::ShortBuffer);
    }
    let mut writer = Writer { text, at: 0 };
    writer.put(b"at blocks sig name\n");
    writer.put_lines(image);
    writer.put_decimal(blocks);
    writer.put(b" blocks\n");
    Ok(writer.at)
}

// Writes the listing of an image to the buffer's start; nothing is written where it has no room.
pub fn listing(image: &[u8], text: &mut [u8]) -> Result<usize, Error>
    ensures value { result ≡ listed_of (listing_text image.now) (length text.old) }
    ensures text_after { text.new ≡ written_in (listing_text image.now) text.old }
{
    if MAX_LISTED < image.len() {
        return list_piece(text, b"too long\n");
    }
    match measure(image) {
        Ok(lines) => list_accepted(text, image, lines),
        Err(e) => list_refused(text, e),
    }
}
