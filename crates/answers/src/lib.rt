// The papers' number and value of an answer.
#![tactic(auto)]

ghost use Rattle.std.specs.Prelude.{◌≡◌};
ghost use Rattle.model.specs.Answers.{limit_number, names_argument, number as number_of, value as value_of};

use model::{Answer, Kind};

// The number for an argument outside its limits, by its kind.
#[tactic(auto, unfolding(model::specs::Answers::limit_number))]
fn limit_number(kind: Kind) -> u32
    ensures { result ≡ limit_number kind }
{
    match kind {
        Kind::Pages => 31,
        Kind::Allowance => 32,
        Kind::ListSize => 33,
        Kind::Flag => 34,
        Kind::Name => 35,
        Kind::Register => 36,
        Kind::Length => 37,
        Kind::OtherGuest => 38,
        Kind::Frames => 39,
        Kind::Key => 40,
    }
}

// Whether this is one of limit_number's numbers, so that the answer names an argument.
#[tactic(auto, unfolding(model::specs::Answers::names_argument, lists::specs::Choice::both))]
pub fn names_argument(number: u32) -> bool
    ensures { result ≡ names_argument number }
{
    (31..=40).contains(&number)
}

// The cases stand in the order of the enum.
#[tactic(auto, unfolding(model::specs::Answers::number))]
pub fn number(a: Answer) -> u32
    ensures { result ≡ number_of a }
{
    match a {
        Answer::Done { .. } => 0,
        Answer::Unsound => 1,
        Answer::BadCaller => 2,
        Answer::Limit { kind, .. } => limit_number(kind),
        Answer::NameTaken => 4,
        Answer::NoSpace => 5,
        Answer::NotOwner => 6,
        Answer::NoSharing => 7,
        Answer::AllowanceUsed => 8,
        Answer::SlotsUsed => 9,
        Answer::NoRun => 10,
        Answer::NoIdentification => 11,
        Answer::NotPermitted => 12,
        Answer::ListFull => 13,
        Answer::AletSpecification => 14,
        Answer::AlenTranslation => 15,
        Answer::AddressingCapability => 16,
        Answer::Addressing => 17,
        Answer::Protection => 18,
        Answer::SpecialOperation => 19,
        Answer::PrimarySpace => 20,
        Answer::LineNotRead => 21,
        Answer::KeyProtection => 22,
        Answer::RoomTooSmall => 41,
        Answer::NotWritten => 42,
    }
}

// A call that was done has the value that its rule names, an argument outside its limits its place, and any other refusal 0.
#[tactic(auto, unfolding(model::specs::Answers::value))]
pub fn value(a: Answer) -> u32
    ensures { result ≡ value_of a }
{
    match a {
        Answer::Done { value } => value,
        Answer::Limit { place, .. } => u32::from(place),
        _ => 0,
    }
}
