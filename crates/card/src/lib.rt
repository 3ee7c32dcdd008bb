// The values that the player and its callers share. What they mean is the definition, in specs/.
#![tactic(auto)]

mod conversions;

// The host's answer to a command; `u8::from` gives its number.
#[derive(Clone, Copy, Debug, PartialEq, Eq)]
pub enum Answer {
    Played,
    NotAnImage,
    DoesNotFit,
    RoomTooSmall,
    WrongLength,
}

// Why a command is refused; `u16::from` gives the status word.
#[derive(Clone, Copy, Debug, PartialEq, Eq)]
pub enum Refused {
    NoFile,
    OutOfRange,
    NotFound,
    Unsuited,
    NotInitialised,
    NotAllowed,
    Contradicted,
    Invalidated,
    Blocked,
    Overflow,
    Length(u8),
    Parameters,
    Instruction,
    NothingWaits,
}

// What a card remembers between two commands: the current elementary file by its number in the image, or none; and the record pointer, a
// record's number or undefined. The bytes that wait and their count are no type with an invariant: a host may hand in any, and `fits` of the
// definition says which fit.
#[derive(Clone, Copy, Debug, PartialEq, Eq)]
pub struct Session {
    pub directory: usize,
    pub current: Option<usize>,
    pub pointer: Option<usize>,
    pub chv1: bool,
    pub chv2: bool,
    pub waiting: [u8; 22],
    pub count: usize,
}

// How many entries the sections of an image have, and where the first of each stands.
#[derive(Clone, Copy, Debug, PartialEq, Eq)]
pub struct Index {
    pub codes: usize,
    pub directories: usize,
    pub tree: usize,
    pub files: usize,
    pub table: usize,
    pub store: usize,
}

// A code's entry, but for the two codes.
#[derive(Clone, Copy, Debug, PartialEq, Eq)]
pub struct Code {
    pub flags: u8,
    pub attempts: u8,
    pub unblocks: u8,
    pub spare: u8,
}

// A directory's entry.
#[derive(Clone, Copy, Debug, PartialEq, Eq)]
pub struct Directory {
    pub identifier: u16,
    pub parent: u8,
    pub characteristics: u8,
    pub memory: u16,
    pub codes: u8,
    pub spare: u8,
}

// A file's entry: `home` is the number of its directory, `width` its record length. `structure` (0 transparent, 1 linear, 3 cyclic) is the byte
// of the image and no enum: before an image is tested any byte may stand there, and the definition tells them apart by number.
#[derive(Clone, Copy, Debug, PartialEq, Eq)]
pub struct Entry {
    pub identifier: u16,
    pub home: u8,
    pub structure: u8,
    pub width: u8,
    pub increase: u8,
    pub access1: u8,
    pub access2: u8,
    pub access3: u8,
    pub status: u8,
    pub size: u16,
    pub top: u8,
    pub spare: u8,
}

// Which of access levels 1 and 2 the codes and the session fulfil.
#[derive(Clone, Copy, Debug, PartialEq, Eq)]
pub struct Rights {
    pub level1: bool,
    pub level2: bool,
}

// What is done to a file.
#[derive(Clone, Copy, Debug, PartialEq, Eq)]
pub enum Act {
    Read,
    Seek,
    Update,
    Increase,
    Rehabilitate,
    Invalidate,
}

// The commands of the interface.
#[derive(Clone, Copy, Debug, PartialEq, Eq)]
pub enum Instruction {
    Select,
    Status,
    ReadBinary,
    UpdateBinary,
    ReadRecord,
    UpdateRecord,
    Seek,
    Increase,
    Verify,
    Change,
    Disable,
    Enable,
    Unblock,
    Invalidate,
    Rehabilitate,
    Sleep,
    GetResponse,
    Unknown,
}
