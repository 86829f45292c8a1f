// The program that writes lines again: lines from standard input; to standard output every one that the reader takes, as the writer
// writes it, and nothing for the others. Where a read or a write fails it says so on standard error. The memory that it takes is
// the same however long the input is.
#![tactic(auto)]

// What `session` and `rewrite` share is in relay, failures and arguments; what they do alone, and their texts, stand here.
fn serve(rt: &HostRuntime) {
    let mut room = [0u8; 65536];
    let end = relay::rewrite(&mut rt.stdin(), &mut rt.stdout(), &mut room);
    failures::tell(
        &mut rt.stderr(),
        end,
        b"rewrite",
        b"the first output line",
        b"output line ",
    );
}

fn main(rt: HostRuntime) {
    if arguments::are_none(&rt) {
        serve(&rt);
        return;
    }
    arguments::answer(
        &rt,
        &mut rt.stdout(),
        &mut rt.stderr(),
        b"rewrite < LINES > LINES\n\nOf the lines of a session (see session --help) those that are of the right form, each written anew, and no others.\nA read or a write that fails is told on standard error.\n",
        b"rewrite --help",
        b"rewrite: takes no argument but --help; lines come from standard input\n",
    );
}
