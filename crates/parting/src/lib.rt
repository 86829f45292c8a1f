// A request taken apart: what `lines` makes of the values of a line's fields, the other way round.
#![tactic(auto)]

ghost use Rattle.std.specs.Prelude.{◌≡◌, ◌≤◌, length, take};
ghost use Rattle.model.specs.Parts.{right_number, call_parts, parts_of};
ghost use Rattle.parting.specs.Apart.{Apart, Parted};

use forms::MOST_FIELDS;
use model::{Operation, Request, Right};

// The number of a request's form, and the values of its fields; what stands behind them counts for nothing.
#[derive(Clone, Copy)]
pub struct Parts {
    pub form: usize,
    pub values: [u64; MOST_FIELDS],
}

// The values of a form, with room for those of the longest: there is no heap to hold as many as there are.
fn apart(form: usize, given: &[u64]) -> Parts
    requires { length given.now ≤ MOST_FIELDS }
    ensures form { result.form ≡ form }
    ensures values { take (length given.now) result.values ≡ given.now }
{
    let mut values = [0; MOST_FIELDS];
    values[..given.len()].copy_from_slice(given);
    Parts { form, values }
}

// No `From`, which would have to stand beside `Right`, far from the lines that alone number rights.
#[tactic(auto, unfolding(model::specs::Parts::right_number))]
fn right_number(right: Right) -> u64
    ensures { result ≡ right_number right }
{
    match right {
        Right::Read => 0,
        Right::Write => 1,
    }
}

#[tactic(auto, unfolding(model::specs::Lines::forms, model::specs::Parts::call_parts))]
fn call_parts(guest: u32, operation: Operation, length: u32) -> Parts
    ensures { Apart result (call_parts guest operation length) }
{
    let g = u64::from(guest);
    match operation {
        Operation::Enrol { settings } => apart(
            1,
            &[
                g,
                u64::from(settings.pages),
                u64::from(settings.allowance),
                u64::from(settings.share),
                u64::from(settings.list),
                u64::from(settings.asf),
            ],
        ),
        Operation::Create { name, pages } => apart(2, &[g, name, u64::from(pages)]),
        Operation::Destroy { id } => apart(3, &[g, u64::from(id)]),
        Operation::Permit {
            id,
            guest: other,
            right,
        } => apart(
            4,
            &[g, u64::from(id), u64::from(other), right_number(right)],
        ),
        Operation::Isolate { id } => apart(5, &[g, u64::from(id)]),
        Operation::Query { owner, name } => apart(6, &[g, u64::from(owner), name]),
        Operation::Add { id, right } => apart(7, &[g, u64::from(id), right_number(right)]),
        Operation::Remove { token } => apart(8, &[g, u64::from(token)]),
        Operation::Load { register, value } => apart(
            9,
            &[g, u64::from(register), u64::from(value)],
        ),
        Operation::Mode { mode } => apart(10, &[g, u64::from(mode)]),
        Operation::Fetch { register, address } => apart(
            11,
            &[
                g,
                u64::from(register),
                u64::from(address),
                u64::from(length),
            ],
        ),
        Operation::Store { register, address } => apart(
            12,
            &[
                g,
                u64::from(register),
                u64::from(address),
                u64::from(length),
            ],
        ),
        Operation::Reset => apart(13, &[g]),
        Operation::Key { key } => apart(14, &[g, u64::from(key)]),
        Operation::Block {
            id,
            address,
            key,
            mark,
        } => apart(
            15,
            &[
                g,
                u64::from(id),
                u64::from(address),
                u64::from(key),
                u64::from(mark),
            ],
        ),
    }
}

// What was not read has no form.
#[tactic(auto, unfolding(model::specs::Lines::forms, model::specs::Parts::parts_of))]
pub fn parts_of(request: Request) -> Option<Parts>
    ensures { Parted result (parts_of request) }
{
    match request {
        Request::Frames { frames } => Some(apart(0, &[u64::from(frames)])),
        Request::Call { call, length } => {
            Some(call_parts(call.caller.guest, call.operation, length))
        }
        Request::NotRead => None,
    }
}
