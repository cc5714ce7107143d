// The errors of every call: the codes that a caller may see, and the offset answered with each.
#![tactic(auto)]

ghost use Rattle.std.specs.Prelude.{◌≡◌};
ghost use Rattle.errors.specs.Errors.{header_code, area_code, code_of, offset_of};
ghost use Rattle.errors.specs.Answer.{Shows};

// The first rule that a header breaks.
#[derive(Clone, Copy)]
pub enum HeaderFault {
    // 2: the length field is zero.
    ZeroLength = 2,
    // 3: the partition runs past the image's end.
    PastEnd = 3,
    // 4: the stored and the computed checksum differ.
    Checksum = 4,
}

impl HeaderFault {
    // The code that a caller sees: a number, since C callers and the table of codes have numbers.
    pub fn code(self) -> u32
        ensures { result ≡ header_code self }
    {
        self as u32
    }
}

// The first fault of a variable area.
#[derive(Clone, Copy)]
pub enum AreaFault {
    // 7: the area ends inside a pair, or where a pair or the end should begin.
    AreaEnd = 7,
    // 8: a stored name breaks the name rule.
    StoredName = 8,
    // 9: 0xFF is followed by 0x00 or 0x80.
    Escape = 9,
    // 10: a name stands a second time.
    Repeated = 10,
}

impl AreaFault {
    // The code that a caller sees: a number, since C callers and the table of codes have numbers.
    pub fn code(self) -> u32
        ensures { result ≡ area_code self }
    {
        self as u32
    }
}

// A refused call, with the offset where the table of codes gives one.
#[derive(Clone, Copy)]
pub enum Error {
    // 1: the image's length is outside the rule.
    ImageLength,
    // 2 to 4: the header at this offset breaks a rule.
    BadHeader { fault: HeaderFault, at: usize },
    // 6: the partition is not found.
    NoPartition,
    // 7 to 10: the variable area has a fault, decided at this offset.
    BadArea { fault: AreaFault, at: usize },
    // 11: the caller's variable name breaks the name rule, first at this index.
    BadName { at: usize },
    // 12: the variable is not found.
    NoVariable,
    // 13: the pairs and the ending 0x00 exceed the area after the edit.
    NoRoom,
    // 14: the caller's buffer is shorter than the value or the text.
    ShortBuffer,
    // 20: a second partition has the signature and the name that only one may have; its header is at this offset.
    RepeatedPartition { at: usize },
}

impl Error {
    // The code that a caller sees: a number, since C callers and the table of codes have numbers.
    pub fn code(self) -> u32
        ensures { result ≡ code_of self }
    {
        match self {
            Error::ImageLength => 1,
            Error::BadHeader { fault, .. } => fault.code(),
            Error::NoPartition => 6,
            Error::BadArea { fault, .. } => fault.code(),
            Error::BadName { .. } => 11,
            Error::NoVariable => 12,
            Error::NoRoom => 13,
            Error::ShortBuffer => 14,
            Error::RepeatedPartition { .. } => 20,
        }
    }

    // The offset that a caller sees, 0 where the table gives none.
    pub fn offset(self) -> usize
        ensures { result ≡ offset_of self }
    {
        match self {
            Error::ImageLength => 0,
            Error::BadHeader { at, .. } => at,
            Error::NoPartition => 0,
            Error::BadArea { at, .. } => at,
            Error::BadName { at } => at,
            Error::NoVariable => 0,
            Error::NoRoom => 0,
            Error::ShortBuffer => 0,
            Error::RepeatedPartition { at } => at,
        }
    }
}

// What a caller sees of a result: code 0 and the value, or the error's code and offset and the type's default for a value.
#[derive(Clone, Copy)]
pub struct Answer<T> {
    pub code: u32,
    pub offset: usize,
    pub value: T,
}

impl<T: Default + Drop> From<Result<T, Error>> for Answer<T> {
    ghost from_gives = { Shows T.is_default };

    fn from(answered: Result<T, Error>) -> Self {
        match answered {
            Ok(value) => Answer {
                code: 0,
                offset: 0,
                value,
            },
            Err(e) => Answer {
                code: e.code(),
                offset: e.offset(),
                value: T::default(),
            },
        }
    }
}
