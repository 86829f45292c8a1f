// The forms of lines, one table for the reader and the writer: the calls' names, and the kinds of their fields. The number of a
// form is its place in the model's `forms`.
#![tactic(auto)]

ghost use Rattle.std.specs.Prelude.{◌≡◌, ◌≤◌, length, map};
ghost use Rattle.fields.specs.Fields.{kind_of};
ghost use Rattle.model.specs.Lines.{form_at};
ghost use Rattle.forms.specs.Tables.{call_names};

pub use fields::Kind;

// How many names a line may begin with.
pub const CALLS: usize = 16;

// Room for any line that is written: STORE and its 4 tabs, three numbers, each taken with 20 digits, and 514 digits of data.
pub const MOST_BYTES: usize = 583;

// The most fields that follow a name.
pub const MOST_FIELDS: usize = 6;

// The calls' names, each as one number: a 1 and its letters, so that the number tells how many there are.
#[tactic(auto, unfolding(model::specs::Lines::forms, model::specs::Lines::packed, crate::specs::Tables::call_names))]
pub fn call_names() -> [u64; CALLS]
    ensures { result ≡ call_names }
{
    [
        0x14652414d4553, // FRAMES
        0x1454e524f4c, // ENROL
        0x1435245415445, // CREATE
        0x144455354524f59, // DESTROY
        0x15045524d4954, // PERMIT
        0x149534f4c415445, // ISOLATE
        0x15155455259, // QUERY
        0x1414444, // ADD
        0x152454d4f5645, // REMOVE
        0x14c4f4144, // LOAD
        0x14d4f4445, // MODE
        0x14645544348, // FETCH
        0x153544f5245, // STORE
        0x15245534554, // RESET
        0x14b4559, // KEY
        0x1424c4f434b, // BLOCK
    ]
}

// The kinds of a call's fields, after its name.
#[tactic(auto, unfolding(model::specs::Lines::forms))]
pub fn call_kinds(place: usize) -> &'static [Kind]
    ensures kinds { map kind_of result.now ≡ (form_at place).kinds }
    ensures few { length result.now ≤ MOST_FIELDS }
{
    match place {
        0 => &[Kind::Number],
        1 => &[
            Kind::Number,
            Kind::Number,
            Kind::Number,
            Kind::Number,
            Kind::Number,
            Kind::Number,
        ],
        2 => &[Kind::Number, Kind::Name, Kind::Number],
        3 => &[Kind::Number, Kind::Number],
        4 => &[Kind::Number, Kind::Number, Kind::Number, Kind::Right],
        5 => &[Kind::Number, Kind::Number],
        6 => &[Kind::Number, Kind::Number, Kind::Name],
        7 => &[Kind::Number, Kind::Number, Kind::Right],
        8 => &[Kind::Number, Kind::Number],
        9 => &[Kind::Number, Kind::Number, Kind::Number],
        10 => &[Kind::Number, Kind::Number],
        11 => &[Kind::Number, Kind::Number, Kind::Number, Kind::Number],
        12 => &[Kind::Number, Kind::Number, Kind::Number, Kind::Data],
        13 => &[Kind::Number],
        14 => &[Kind::Number, Kind::Number],
        15 => &[
            Kind::Number,
            Kind::Number,
            Kind::Number,
            Kind::Number,
            Kind::Number,
        ],
        _ => &[],
    }
}
