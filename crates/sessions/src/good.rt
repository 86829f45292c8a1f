// The good lines of an input, each with a newline: what the program that writes lines again makes of it.
ghost use Rattle.std.specs.Prelude.{◌≤◌, length};

use crate::pieces;
use model::Request;

fn is_good(line: &[u8]) -> bool {
    let mut bytes = [0u8; 257];
    lines::read_line(line, &mut bytes) != Request::NotRead
}

fn append_good(text: &mut [u8], at: usize, line: &[u8]) -> usize
    requires { at ≤ length text.old }
    ensures { result ≤ length text.old }
{
    if is_good(line) {
        let end = pieces::append(text, at, line);
        return pieces::append(text, end, b"\n");
    }
    at
}

// The length of the text.
pub(crate) fn good_lines(input: &[u8], text: &mut [u8]) -> usize
    ensures { result ≤ length text.old }
{
    let mut at: usize = 0;
    for line in input.split(|b| *b == b'\n') {
        at = append_good(text, at, line);
    }
    at
}
