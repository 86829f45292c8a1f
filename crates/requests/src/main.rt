// The writer on requests that no line gives, and in buffers of any length. Each line shows the answer's number and value, and the
// whole buffer in brackets, which was filled with dots before; then whether the line was read back and written again as the same
// bytes.
#![tactic(auto)]

use model::{Answer, Call, Caller, Operation, Request, Right, Settings};

fn asked(guest: u32, operation: Operation, length: u32) -> Request {
    Request::Call {
        call: Call {
            caller: Caller { guest },
            operation,
        },
        length,
    }
}

// The calls without a name or data, all of whose numbers are n, and a request that is no line. A length stands with each call: only
// FETCH has it in its line.
fn numbered(n: u32) -> [Request; 14] {
    let settings = Settings {
        pages: n,
        allowance: n,
        share: n,
        list: n,
        asf: n,
    };
    let right = if n == 0 { Right::Read } else { Right::Write };
    [
        Request::Frames { frames: n },
        asked(n, Operation::Enrol { settings }, n),
        asked(n, Operation::Destroy { id: n }, n),
        asked(
            n,
            Operation::Permit {
                id: n,
                guest: n,
                right,
            },
            n,
        ),
        asked(n, Operation::Isolate { id: n }, n),
        asked(n, Operation::Add { id: n, right }, n),
        asked(n, Operation::Remove { token: n }, n),
        asked(
            n,
            Operation::Load {
                register: n,
                value: n,
            },
            n,
        ),
        asked(n, Operation::Mode { mode: n }, n),
        asked(
            n,
            Operation::Fetch {
                register: n,
                address: n,
            },
            n,
        ),
        asked(n, Operation::Reset, n),
        asked(n, Operation::Key { key: n }, n),
        asked(
            n,
            Operation::Block {
                id: n,
                address: n,
                key: n,
                mark: n,
            },
            n,
        ),
        Request::NotRead,
    ]
}

fn create(n: u32, name: u64) -> Request {
    asked(n, Operation::Create { name, pages: n }, 0)
}

fn query(n: u32, name: u64) -> Request {
    asked(n, Operation::Query { owner: n, name }, 0)
}

fn store(n: u32, length: u32) -> Request {
    let store = Operation::Store {
        register: n,
        address: n,
    };
    asked(n, store, length)
}

// A write that fails is passed over: whoever compares the output sees what is missing. These lines are in each program that prints,
// since a crate of theirs would hold nothing else.
fn say(rt: &impl Print, text: &[u8]) {
    let _ = rt.write_all(text);
}

fn say_number(rt: &impl Print, n: u32) {
    let _ = rt.print(n);
}

// The bytes that were written, where they were.
fn written(answer: Answer, buffer: &[u8]) -> Option<&[u8]> {
    match answer {
        Answer::Done { value } => buffer.get(..value as usize),
        _ => None,
    }
}

// The line is read, and what was read is written in its turn.
fn is_read_back(line: &[u8]) -> bool {
    let mut bytes = [0u8; 257];
    let request = lines::read_line(line, &mut bytes);
    let mut again = [0u8; 600];
    let answer = writing::write(request, &bytes, &mut again);
    written(answer, &again) == Some(line)
}

fn told(rt: &impl Print, answer: Answer, buffer: &[u8]) {
    say_number(rt, answers::number(answer));
    say(rt, b" ");
    say_number(rt, answers::value(answer));
    say(rt, b" [");
    say(rt, buffer);
    say(rt, b"]");
    if let Some(line) = written(answer, buffer) {
        if is_read_back(line) {
            say(rt, b" same");
        } else {
            say(rt, b" DIFFERS");
        }
    }
    say(rt, b"\n");
}

// The writer's answer, where so much room is lent, which is at most 600 bytes.
fn show(rt: &impl Print, request: Request, lent: &[u8], room: usize) {
    let mut buffer = [46u8; 600];
    if let Some(buffer) = buffer.get_mut(..room) {
        let answer = writing::write(request, lent, buffer);
        told(rt, answer, buffer);
    }
}

fn show_names(rt: &impl Print, name: u64) {
    show(rt, create(1, name), b"", 24);
    show(rt, query(2, name), b"", 24);
}

// Each call at both ends of its numbers, and a request that is no line.
fn show_numbers(rt: &impl Print) {
    for (low, high) in numbered(0).iter().zip(numbered(u32::MAX).iter()) {
        show(rt, *low, b"", 80);
        show(rt, *high, b"", 80);
    }
}

fn show_all_names(rt: &impl Print) {
    show_names(rt, 0x4120202020202020); // A
    show_names(rt, 0x4142434445464748); // ABCDEFGH
    show_names(rt, 0x7465737420202020); // test
    show_names(rt, 0x397e2f2020202020); // 9~/
    show_names(rt, 0x2020202020202020); // blanks
    show_names(rt, 0x2041202020202020); // a blank first
    show_names(rt, 0x4120422020202020); // a blank inside
    show_names(rt, 0x4109422020202020); // a tab
    show_names(rt, 0x410a422020202020); // a newline
    show_names(rt, 0x410d422020202020); // a carriage return, which the reader takes
    show(rt, create(0, 0x4142434445464748), b"", 40);
    show(rt, create(u32::MAX, 0x4142434445464748), b"", 40);
    show(rt, query(0, 0x4142434445464748), b"", 40);
    show(rt, query(u32::MAX, 0x4142434445464748), b"", 40);
}

fn show_data(rt: &impl Print) {
    let lent = [171u8; 300];
    show(rt, store(0, 0), b"", 20);
    show(rt, store(0, 0), &lent, 20);
    show(rt, store(1, 3), b"\x00\x9a\xff\x01", 20);
    show(rt, store(u32::MAX, 3), b"\x00\x9a\xff", 60);
    show(rt, store(1, 257), &lent[0..257], 560);
    show(rt, store(1, 258), &lent[0..258], 600);
    show(rt, store(1, u32::MAX), &lent, 600);
    // more than are lent, also where room is short
    show(rt, store(1, 3), b"\x00\x9a", 20);
    show(rt, store(1, 3), b"\x00\x9a", 3);
    show(rt, store(1, 257), &lent[0..256], 600);
}

// One byte too few, exact, one more; and no room at all.
fn show_rooms(rt: &impl Print) {
    let lent = [171u8; 300];
    show(rt, asked(1, Operation::Reset, 1), b"", 6);
    show(rt, asked(1, Operation::Reset, 1), b"", 7);
    show(rt, asked(1, Operation::Reset, 1), b"", 8);
    show(rt, store(1, 257), &lent, 525);
    show(rt, store(1, 257), &lent, 526);
    show(rt, store(u32::MAX, 257), &lent, 553);
    show(rt, Request::Frames { frames: 8 }, b"", 0);
    show(rt, create(1, 0x2020202020202020), b"", 0);
    show(rt, Request::NotRead, b"", 0);
}

fn main(rt: HostRuntime) {
    show_numbers(&rt);
    show_all_names(&rt);
    show_data(&rt);
    show_rooms(&rt);
}
