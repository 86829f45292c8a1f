// What a program says on standard error of a read or a write that failed. `name` is the program's, `first` what it calls the first
// line that it writes, and `last` what it calls any other, its number left out.
#![tactic(auto)]

ghost use Rattle.std.specs.Prelude.{◌+◌, ◌≤◌, ◌++◌, length};
ghost use Rattle.model.specs.Session.{decimal};
ghost use Rattle.digits.specs.Wrote.{HasRoom, Adds};
ghost use Rattle.failures.specs.Message.{is_reading, error_of, kind_text, place_text, message_text};

use digits::Text;
use relay::{Ending, Failure};
use std::io::Write;

// What failed, and the number of the error.
fn put_failure(text: &mut Text, failure: Failure)
    requires { HasRoom text.old 44 }
    ensures adds { Adds text.old (kind_text (is_reading failure) ++ decimal (error_of failure)) text.new }
    ensures short { text.new.at ≤ text.old.at + 44 }
{
    match failure {
        Failure::Reading { error } => {
            text.put_bytes(b": reading failed (error ");
            text.put_decimal(u64::from(error));
        }
        Failure::Writing { error } => {
            text.put_bytes(b": writing failed (error ");
            text.put_decimal(u64::from(error));
        }
    }
}

// The last line that was written whole.
fn put_place(text: &mut Text, first: &[u8], last: &[u8], line: u64)
    requires { HasRoom text.old (length first.now + 10) × HasRoom text.old (length last.now + 29) }
    ensures { Adds text.old (place_text first.now last.now line) text.new }
{
    if line == 0 {
        text.put_bytes(b") before ");
        text.put_bytes(first);
        text.put_byte(b'\n');
        return;
    }
    text.put_bytes(b") after ");
    text.put_bytes(last);
    text.put_decimal(line);
    text.put_byte(b'\n');
}

fn put_message(text: &mut Text, name: &[u8], first: &[u8], last: &[u8], failure: Failure, line: u64)
    requires { HasRoom text.old (length name.now + length first.now + 54) × HasRoom text.old (length name.now + length last.now + 73) }
    ensures { Adds text.old (message_text name.now first.now last.now (is_reading failure) (error_of failure) line) text.new }
{
    text.put_bytes(name);
    put_failure(text, failure);
    put_place(text, first, last, line);
}

// One line. The three texts are handed straight down, and put together nowhere else: a struct of them would be made and taken apart
// once.
fn complain<W: Write>(
    to: &mut W,
    name: &[u8],
    first: &[u8],
    last: &[u8],
    failure: Failure,
    line: u64,
)
    requires { (length name.now + length first.now ≤ 50) × (length name.now + length last.now ≤ 50) }
{
    let mut room = [0u8; 128];
    let mut text = Text {
        out: &mut room,
        at: 0,
    };
    put_message(&mut text, name, first, last, failure, line);
    let n = text.at;
    let _ = descriptors::send(to, &room[..n]);
}

// How the work ended, where that was not the end of the input.
pub fn tell<W: Write>(to: &mut W, end: Ending, name: &[u8], first: &[u8], last: &[u8])
    requires { (length name.now + length first.now ≤ 50) × (length name.now + length last.now ≤ 50) }
{
    if let Err(failure) = end.how {
        complain(to, name, first, last, failure, end.line);
    }
}
