// The types of the space manager. What they mean is defined in specs/, under the headings of paper 01.
// Numbers of guests are 1 to 8, of slots 0 to 31, of entries 2 to 31.
#![tactic(auto)]

ghost use Rattle.std.specs.Prelude.{◌≡◌};
ghost use Rattle.model.specs.Changes.{raised};
ghost use Rattle.model.specs.declared.Grant.TheVariants.{Nothing};

// The name of a primary space: BASE and four blanks.
pub const BASE: u64 = 0x4241534520202020;

#[derive(Clone, Copy, PartialEq, Eq, PartialOrd, Ord)]
pub enum Right {
    Read,
    Write,
}

// "unused; valid with a space and a right; or revoked". The space is named by its slot.
#[derive(Clone, Copy, Default, PartialEq, Eq)]
pub enum Standing {
    #[default]
    Unused,
    Valid { slot: u8, right: Right },
    Revoked,
}

// "An entry is a sequence number and a standing". The standing stands first: its tag is then the lowest byte of the entry.
#[derive(Clone, Copy, Default, PartialEq, Eq)]
pub struct Entry {
    pub standing: Standing,
    pub sequence: u8,
}

// What a guest is permitted of a space. No Option<Right>: `raised` and `allows` of the specs speak of the three.
#[derive(Clone, Copy, Default, PartialEq, Eq, PartialOrd, Ord)]
pub enum Grant {
    #[default]
    Nothing,
    Reading,
    Writing,
}

// What a right permits on its own.
impl From<Right> for Grant {
    ghost from_gives = { λ right grant. grant ≡ raised Nothing right };

    #[tactic(auto, unfolding(crate::specs::Changes::raised))]
    fn from(right: Right) -> Grant {
        match right {
            Right::Read => Grant::Reading,
            Right::Write => Grant::Writing,
        }
    }
}

#[derive(Clone, Copy, Default, PartialEq, Eq)]
pub struct Permit {
    pub grant: Grant,
}

// A space is live where its identification is not 0; a slot has no Option, since the specs speak of what a free slot holds. A name is
// eight bytes in one number, the first byte highest.
#[derive(Clone, Copy, Default, PartialEq, Eq)]
pub struct Space {
    pub id: u32,
    pub owner: u8,
    pub name: u64,
    pub first: u16,
    pub pages: u16,
}

// A row of the table. The mark `enrolled` stands beside the rest, and no Option, since the specs read the row of any guest.
#[derive(Clone, Copy, Default, PartialEq, Eq)]
pub struct Guest {
    pub enrolled: bool,
    pub allowance: u8,
    pub share: bool,
    pub list: u8,
    pub asf: bool,
}

// The access registers of a CPU, its mode, true for access-register mode and false for primary mode, and its access key.
#[derive(Clone, Copy, Default, PartialEq, Eq)]
pub struct Cpu {
    pub registers: [u32; 16],
    pub mode: bool,
    pub key: u8,
}

// What protects one frame: its 4-bit key, and its fetch-protect mark.
#[derive(Clone, Copy, Default, PartialEq, Eq)]
pub struct Cell {
    pub key: u8,
    pub mark: bool,
}

// Guest g stands at place g - 1 of guests and cpus; its permit for the space in slot u at place u * 8 + (g - 1);
// entry n of its list at place (g - 1) * 30 + (n - 2); the cell of frame f at place f.
#[derive(Clone, Copy, PartialEq, Eq)]
pub struct State {
    pub frames: u32,
    pub next: u32,
    pub spaces: [Space; 32],
    pub guests: [Guest; 8],
    pub cpus: [Cpu; 8],
    pub permits: [Permit; 256],
    pub entries: [Entry; 240],
    pub cells: [Cell; 512],
}

// The kinds of arguments that have limits.
#[derive(Clone, Copy, PartialEq, Eq)]
pub enum Kind {
    Pages,
    Allowance,
    ListSize,
    Flag,
    Name,
    Register,
    Length,
    OtherGuest,
    Frames,
    Key,
}

// One case for each reason. specs/Answers.antt gives each the paper's number and value; these number `Done` among the rest, so that
// it is a case and no Ok.
#[derive(Clone, Copy, PartialEq, Eq)]
pub enum Answer {
    Done { value: u32 },
    Unsound,
    BadCaller,
    Limit { kind: Kind, place: u8 },
    NameTaken,
    NoSpace,
    NotOwner,
    NoSharing,
    AllowanceUsed,
    SlotsUsed,
    NoRun,
    NoIdentification,
    NotPermitted,
    ListFull,
    AletSpecification,
    AlenTranslation,
    AddressingCapability,
    Addressing,
    Protection,
    SpecialOperation,
    PrimarySpace,
    LineNotRead,
    KeyProtection,
    RoomTooSmall,
    NotWritten,
}

// Who calls.
#[derive(Clone, Copy, PartialEq, Eq)]
pub struct Caller {
    pub guest: u32,
}

// What ENROL sets, as it is asked for: the pages of the primary space, the allowance of data spaces, whether the guest may share,
// L, and whether it has the ASF control.
#[derive(Clone, Copy, PartialEq, Eq)]
pub struct Settings {
    pub pages: u32,
    pub allowance: u32,
    pub share: u32,
    pub list: u32,
    pub asf: u32,
}

// The fifteen calls with their arguments, the caller left out. ENROL's guest is its caller. The length of a fetch or
// store is that of the lent buffer.
#[derive(Clone, Copy, PartialEq, Eq)]
pub enum Operation {
    Enrol {
        settings: Settings,
    },
    Create {
        name: u64,
        pages: u32,
    },
    Destroy {
        id: u32,
    },
    Permit {
        id: u32,
        guest: u32,
        right: Right,
    },
    Isolate {
        id: u32,
    },
    Query {
        owner: u32,
        name: u64,
    },
    Add {
        id: u32,
        right: Right,
    },
    Remove {
        token: u32,
    },
    Load {
        register: u32,
        value: u32,
    },
    Mode {
        mode: u32,
    },
    Fetch {
        register: u32,
        address: u32,
    },
    Store {
        register: u32,
        address: u32,
    },
    Reset,
    Key {
        key: u32,
    },
    Block {
        id: u32,
        address: u32,
        key: u32,
        mark: u32,
    },
}

#[derive(Clone, Copy, PartialEq, Eq)]
pub struct Call {
    pub caller: Caller,
    pub operation: Operation,
}

// What a call changes in the tables, as the statements name it: nothing, one element, a new space with or without its guest, or
// all that belongs to spaces that are withdrawn. specs/Changes.antt gives the tables after each. A place, or the number of a
// CPU, is that of an element in its table.
#[derive(Clone, Copy, PartialEq, Eq)]
pub enum Change {
    Keep,
    SetPermit {
        place: u16,
        permit: Permit,
    },
    SetEntry {
        place: u16,
        entry: Entry,
    },
    SetRegister {
        cpu: u8,
        register: u8,
        value: u32,
    },
    SetMode {
        cpu: u8,
        mode: bool,
    },
    AddSpace {
        slot: u8,
        space: Space,
    },
    AddGuest {
        slot: u8,
        space: Space,
        place: u8,
        guest: Guest,
    },
    DestroySpace {
        slot: u8,
    },
    IsolateSpace {
        slot: u8,
    },
    ResetGuest {
        guest: u8,
    },
    SetKey {
        cpu: u8,
        key: u8,
    },
    SetCell {
        place: u16,
        cell: Cell,
    },
}

// What a call returns: the answer and the tables after it.
#[derive(Clone, Copy, PartialEq, Eq)]
pub struct Reply {
    pub answer: Answer,
    pub state: State,
}

// What host access-register translation reaches: the space's slot, and the right.
#[derive(Clone, Copy, PartialEq, Eq)]
pub struct Reach {
    pub slot: u8,
    pub right: Right,
}

// What a line of a session asks for: FRAMES, a call, or nothing that can be read. The length is FETCH's as written, or the
// number of STORE's data bytes, which stand beside; for every other call it is 0. A line that is not read is a case and no None: it is
// answered like the others.
#[derive(Clone, Copy, PartialEq, Eq)]
pub enum Request {
    Frames { frames: u32 },
    Call { call: Call, length: u32 },
    NotRead,
}
