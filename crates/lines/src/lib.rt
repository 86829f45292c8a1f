// One line of a session, read in place: the request that it spells, and the data of a store. What a line spells is `read_line`
// of the model, and its data `data_of`.
#![tactic(auto)]

ghost use Rattle.std.specs.Prelude.{◌≤◌, ◌<◌, ◌≡◌, ◌==◌, ◌%◌, length, drop, position};
ghost use Rattle.std.specs.Option.{unwrap_or};
ghost use Rattle.lists.specs.Bytes.{over};
ghost use Rattle.lists.specs.Choice.{choose};
ghost use Rattle.model.specs.declared.Request.TheVariants.{NotRead};
ghost use Rattle.model.specs.Lines.{read_fields, make_by, right_of, read_line, data_of, calls, form_at, stores, length_of};
ghost use Rattle.lines.specs.Fields.{following};
ghost use Rattle.forms.specs.Tables.{call_names};
ghost use Rattle.lines.specs.Made.{asked_by, made_by};

use model::{Call, Caller, Operation, Request, Right, Settings};

// The number of the call that a name names. The compiler makes a few comparisons of the search.
fn call_place(word: u64) -> Option<usize>
    ensures { result ≡ position (λ name. name == word) call_names }
{
    forms::call_names().iter().position(|name| *name == word)
}

// Any number but 0 is a write, as in `right_of` of the model.
#[tactic(auto, unfolding(model::specs::Lines::right_of, lists::specs::Choice::choose))]
fn right_of(v: u64) -> Right
    ensures { result ≡ right_of v }
{
    if v == 0 { Right::Read } else { Right::Write }
}

fn asked(guest: u32, operation: Operation, length: u32) -> Request
    ensures { result ≡ asked_by guest operation length }
{
    let caller = Caller { guest };
    let call = Call { caller, operation };
    Request::Call { call, length }
}

// Only the lower 32 bits of a number are taken: a number that was read has no others, so `try_from` would have a case that never
// comes.
fn low(value: u64) -> u32
    ensures { result ≡ value % 4294967296 }
{
    (value % 4294967296) as u32
}

// The request that the values of a call's fields make. Names and rights are taken whole. Calls go by their place in the model's
// `forms`: an enum of them would be made of a place that a search gives, and turned into one to ask the tables.
#[tactic(auto, unfolding(model::specs::Lines::forms, crate::specs::Made::made_by, crate::specs::Made::lowered, crate::specs::Made::low))]
fn make(place: usize, values: &[u64; forms::MOST_FIELDS]) -> Request
    ensures { result ≡ made_by place values.now }
{
    let [first, second, third, fourth, fifth, sixth] = *values;
    let guest = low(first);
    match place {
        0 => Request::Frames { frames: guest },
        1 => asked(
            guest,
            Operation::Enrol {
                settings: Settings {
                    pages: low(second),
                    allowance: low(third),
                    share: low(fourth),
                    list: low(fifth),
                    asf: low(sixth),
                },
            },
            0,
        ),
        2 => asked(
            guest,
            Operation::Create {
                name: second,
                pages: low(third),
            },
            0,
        ),
        3 => asked(guest, Operation::Destroy { id: low(second) }, 0),
        4 => asked(
            guest,
            Operation::Permit {
                id: low(second),
                guest: low(third),
                right: right_of(fourth),
            },
            0,
        ),
        5 => asked(guest, Operation::Isolate { id: low(second) }, 0),
        6 => asked(
            guest,
            Operation::Query {
                owner: low(second),
                name: third,
            },
            0,
        ),
        7 => asked(
            guest,
            Operation::Add {
                id: low(second),
                right: right_of(third),
            },
            0,
        ),
        8 => asked(guest, Operation::Remove { token: low(second) }, 0),
        9 => asked(
            guest,
            Operation::Load {
                register: low(second),
                value: low(third),
            },
            0,
        ),
        10 => asked(guest, Operation::Mode { mode: low(second) }, 0),
        11 => asked(
            guest,
            Operation::Fetch {
                register: low(second),
                address: low(third),
            },
            low(fourth),
        ),
        12 => asked(
            guest,
            Operation::Store {
                register: low(second),
                address: low(third),
            },
            low(fourth),
        ),
        13 => asked(guest, Operation::Reset, 0),
        14 => asked(guest, Operation::Key { key: low(second) }, 0),
        15 => asked(
            guest,
            Operation::Block {
                id: low(second),
                address: low(third),
                key: low(fourth),
                mark: low(fifth),
            },
            0,
        ),
        _ => Request::NotRead,
    }
}

// The fields after the call's name, which ends at `first`. Each is read up to its tab; data run to the line's end.
fn arguments(line: &[u8], place: usize, first: usize) -> Option<Request>
    requires { (place < calls) × (first ≤ length line.now) }
    ensures { unwrap_or result NotRead ≡ make_by (form_at place).make (read_fields (form_at place).kinds (following (drop first line.now))) }
{
    let mut values = [0u64; forms::MOST_FIELDS];
    let mut end = first;
    for (k, kind) in forms::call_kinds(place).iter().enumerate() {
        if line.len() <= end {
            return None;
        }
        let field = fields::read_field(*kind, line, end + 1)?;
        values[k] = field.value;
        end = field.end;
    }
    if end < line.len() {
        return None;
    }
    Some(make(place, &values))
}

// What a line asks for, where it is read.
fn read(line: &[u8]) -> Option<Request>
    ensures { unwrap_or result NotRead ≡ read_line line.now }
{
    if 600 < line.len() {
        return None;
    }
    let name = fields::word(line)?;
    let place = call_place(name.value)?;
    arguments(line, place, name.end)
}

// How many bytes of data stand at the end of a request's line.
#[tactic(auto, unfolding(model::specs::Lines::stores, model::specs::Lines::length_of, model::specs::Classes::is_store, lists::specs::Choice::choose))]
fn data_length(request: &Request) -> usize
    ensures { result ≡ choose (stores request.now) (length_of request.now) 0 }
{
    match request {
        Request::Call {
            call: Call {
                operation: Operation::Store { .. },
                ..
            },
            length,
        } => *length as usize,
        _ => 0,
    }
}

// One line, without its newline: what it asks for, and the data of a store over the first bytes of `bytes`.
pub fn read_line(line: &[u8], bytes: &mut [u8; 257]) -> Request
    ensures value { result ≡ read_line line.now }
    ensures bytes_after { bytes.new ≡ over bytes.old 0 (data_of line.now) }
{
    let request = read(line).unwrap_or(Request::NotRead);
    let start = line.len() - 2 * data_length(&request);
    fields::hexes::decode(&line[start..], bytes);
    request
}
