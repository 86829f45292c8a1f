// The text of a line's outcome.
#![tactic(auto)]

ghost use Rattle.std.specs.Prelude.{◌+◌, ◌≤◌, ◌≡◌, length};
ghost use Rattle.model.specs.declared.Answer.TheVariants.{Done};
ghost use Rattle.model.specs.Session.{done_text, request_text, value_text, line_text, header};
ghost use Rattle.digits.specs.Wrote.{Wrote, HasRoom, Adds};

use digits::Text;
use model::{Answer, Operation, Request};

// The value of a call that was done: a number, the bytes fetched, or none.
fn put_done(text: &mut Text, operation: &Operation, value: u32, moved: &[u8])
    requires { HasRoom text.old 514 × (length moved.now ≤ 257) }
    ensures adds { Adds text.old (done_text operation.now (Done value) moved.now) text.new }
    ensures short { text.new.at ≤ text.old.at + 514 }
{
    match operation {
        Operation::Enrol { .. }
        | Operation::Create { .. }
        | Operation::Query { .. }
        | Operation::Add { .. } => text.put_decimal(u64::from(value)),
        Operation::Fetch { .. } => text.put_hex(moved),
        _ => text.put_byte(b'-'),
    }
}

// A line that is no call has no value.
fn put_asked(text: &mut Text, request: &Request, value: u32, moved: &[u8])
    requires { HasRoom text.old 514 × (length moved.now ≤ 257) }
    ensures adds { Adds text.old (request_text request.now (Done value) moved.now) text.new }
    ensures short { text.new.at ≤ text.old.at + 514 }
{
    match request {
        Request::Call { call, .. } => put_done(text, &call.operation, value, moved),
        _ => text.put_byte(b'-'),
    }
}

// A refusal shows the place of the argument that it names, if it names one.
fn put_value(text: &mut Text, request: &Request, answer: Answer, moved: &[u8])
    requires { HasRoom text.old 514 × (length moved.now ≤ 257) }
    ensures adds { Adds text.old (value_text (record { request = request.now; answer = answer; moved = moved.now })) text.new }
    ensures short { text.new.at ≤ text.old.at + 514 }
{
    match answer {
        Answer::Done { value } => put_asked(text, request, value, moved),
        Answer::Limit { place, .. } => text.put_decimal(u64::from(place)),
        _ => text.put_byte(b'-'),
    }
}

// Line number, answer and value, parted by one space, and a newline.
pub fn put_line(text: &mut Text, line: u64, request: &Request, answer: Answer, moved: &[u8])
    requires { HasRoom text.old 600 × (length moved.now ≤ 257) }
    ensures adds { Adds text.old (line_text line (record { request = request.now; answer = answer; moved = moved.now })) text.new }
    ensures short { text.new.at ≤ text.old.at + 557 }
{
    text.put_decimal(line);
    text.put_byte(b' ');
    text.put_decimal(u64::from(answers::number(answer)));
    text.put_byte(b' ');
    put_value(text, request, answer, moved);
    text.put_byte(b'\n');
}

pub fn put_header(out: &mut [u8]) -> usize
    requires { 18 ≤ length out.old }
    ensures { Wrote out.old 0 header out.new result }
{
    moves::put(out, b"line answer value\n");
    18
}
