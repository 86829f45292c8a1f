// From a file to a file, by the loop that the programs use, in reads of 4,096 bytes: a session, and lines written again.
ghost use Rattle.std.specs.Prelude.{◌≤◌, length};

use relay::Ending;
use std::fs;
use std::io::Read;
use std::rt::Files;

// All of the input was read, and after a header of so many bytes so many were written in all.
fn is_whole(end: Ending, size: usize, header: u64, said: usize) -> bool {
    end.how.is_ok() && end.taken == size as u64 && end.written.wrapping_add(header) == said as u64
}

// Reads until the room is full, the input ends or a read fails; how many bytes it brought. It goes by no code that is tested here.
pub(crate) fn read_full<R: Read>(from: &mut R, room: &mut [u8]) -> usize
    ensures { result ≤ length room.new }
{
    let mut at: usize = 0;
    for _ in 0..u64::MAX {
        if at == room.len() {
            break;
        }
        match from.read(&mut room[at..]) {
            Ok(0) | Err(_) => break,
            Ok(count) => at += count,
        }
    }
    at
}

fn holds(rt: &impl Files, path: &str, want: &[u8]) -> bool {
    let Ok(mut file) = fs::open(rt, path) else {
        return false;
    };
    let mut text = [0u8; 65536];
    let n = read_full(&mut file, &mut text);
    &text[..n] == want
}

pub(crate) fn is_same(rt: &impl Files, path: &str, size: usize, want: &[u8]) -> bool {
    let Ok(mut from) = fs::open(rt, path) else {
        return false;
    };
    let Ok(mut to) = fs::create(rt, "replies") else {
        return false;
    };
    let mut scratch = [165u8; 32768];
    let mut room = [0u8; 4096];
    let end = relay::run(&mut from, &mut to, &mut scratch, &mut room);
    drop(from);
    drop(to);
    is_whole(end, size, 18, want.len()) && holds(rt, "replies", want)
}

// Whether the lines of a file, written again, are the wanted ones.
pub(crate) fn is_rewritten(rt: &impl Files, path: &str, size: usize, want: &[u8]) -> bool {
    let Ok(mut from) = fs::open(rt, path) else {
        return false;
    };
    let Ok(mut to) = fs::create(rt, "again") else {
        return false;
    };
    let mut room = [0u8; 4096];
    let end = relay::rewrite(&mut from, &mut to, &mut room);
    drop(from);
    drop(to);
    is_whole(end, size, 0, want.len()) && holds(rt, "again", want)
}
