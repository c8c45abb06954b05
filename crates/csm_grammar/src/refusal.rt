ghost use Rattle.std.specs.Prelude.{◌≡◌, ◌+◌, ◌<◌, ◌^◌};
ghost use Rattle.csm_grammar.specs.Places.{read_number, place_of, moved};

use crate::tag::Tag;

/// Why no message begins at byte 0. A number is the place of the fault: how many bytes stand
/// before it.
#[derive(Clone, Copy, PartialEq, Eq)]
pub enum ReadRefusal {
    /// The bytes don't begin with `CSM(`.
    NotCsm(u64),
    /// The message doesn't end within 1,024 bytes.
    TooLong(u64),
    /// The bytes end before the message does.
    Unended(u64),
    /// A token has no `/`, or no tag of 1 to 4 bytes before it.
    BadTag(u64),
    /// The tag is none of the standard's or of this profile's.
    UnknownTag(u64),
    /// The tag came before; KD in a key service message, twice.
    Repeated(Tag, u64),
    /// A form that the fields before it fit requires this tag, which isn't there.
    Missing(Tag, u64),
    /// No form of the class has the tag beside those before it, or it stands behind the code.
    Unwanted(Tag, u64),
    /// What stands behind the tag isn't its contents.
    BadContents(Tag, u64),
    /// A tag of the standard that this profile doesn't have.
    Unsupported(Tag, u64),
    /// No memory was left; it has no place.
    NoMemory,
}

impl ReadRefusal {
    /// The number of the refusal in a status line (this project's profile). Want of memory has none,
    /// and gives 0.
    pub fn number(self) -> u32
        ensures { result ≡ read_number self }
    {
        match self {
            ReadRefusal::NotCsm(_) => 5,
            ReadRefusal::TooLong(_) => 6,
            ReadRefusal::Unended(_) => 7,
            ReadRefusal::BadTag(_) => 8,
            ReadRefusal::UnknownTag(_) => 9,
            ReadRefusal::Repeated(_, _) => 10,
            ReadRefusal::Missing(_, _) => 11,
            ReadRefusal::Unwanted(_, _) => 12,
            ReadRefusal::BadContents(_, _) => 13,
            ReadRefusal::Unsupported(_, _) => 14,
            ReadRefusal::NoMemory => 0,
        }
    }

    /// How many bytes stand before the fault. Want of memory has no place, and gives 0.
    pub fn place(self) -> u64
        ensures { result ≡ place_of self }
    {
        match self {
            ReadRefusal::NotCsm(place)
            | ReadRefusal::TooLong(place)
            | ReadRefusal::Unended(place)
            | ReadRefusal::BadTag(place)
            | ReadRefusal::UnknownTag(place)
            | ReadRefusal::Repeated(_, place)
            | ReadRefusal::Missing(_, place)
            | ReadRefusal::Unwanted(_, place)
            | ReadRefusal::BadContents(_, place)
            | ReadRefusal::Unsupported(_, place) => place,
            ReadRefusal::NoMemory => 0,
        }
    }

    /// The refusal, its place counted from a byte that stands `count` bytes earlier.
    pub fn moved(self, count: u64) -> ReadRefusal
        requires { count + place_of self < 2 ^ 64 }
        ensures { result ≡ moved count self }
    {
        match self {
            ReadRefusal::NotCsm(place) => ReadRefusal::NotCsm(count + place),
            ReadRefusal::TooLong(place) => ReadRefusal::TooLong(count + place),
            ReadRefusal::Unended(place) => ReadRefusal::Unended(count + place),
            ReadRefusal::BadTag(place) => ReadRefusal::BadTag(count + place),
            ReadRefusal::UnknownTag(place) => ReadRefusal::UnknownTag(count + place),
            ReadRefusal::Repeated(tag, place) => ReadRefusal::Repeated(tag, count + place),
            ReadRefusal::Missing(tag, place) => ReadRefusal::Missing(tag, count + place),
            ReadRefusal::Unwanted(tag, place) => ReadRefusal::Unwanted(tag, count + place),
            ReadRefusal::BadContents(tag, place) => ReadRefusal::BadContents(tag, count + place),
            ReadRefusal::Unsupported(tag, place) => ReadRefusal::Unsupported(tag, count + place),
            ReadRefusal::NoMemory => ReadRefusal::NoMemory,
        }
    }
}
