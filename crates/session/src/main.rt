// The session program: requests from standard input, one a line; a header and then one reply a line to standard output. Where a
// read or a write fails it says so on standard error. The memory that it takes is the same however long the input is.
#![tactic(auto)]

// What `session` and `rewrite` share is in relay, failures and arguments; what they do alone, and their texts, stand here.
fn serve(rt: &HostRuntime) {
    let mut scratch = [0u8; 32768];
    let mut room = [0u8; 65536];
    let end = relay::run(&mut rt.stdin(), &mut rt.stdout(), &mut scratch, &mut room);
    failures::tell(
        &mut rt.stderr(),
        end,
        b"session",
        b"the first reply",
        b"the reply to line ",
    );
}

fn main(rt: HostRuntime) {
    if arguments::are_none(&rt) {
        serve(&rt);
        return;
    }
    arguments::answer(
        &rt,
        &mut rt.stdout(),
        &mut rt.stderr(),
        b"session < REQUESTS > REPLIES\n\nOne request a line, its fields parted by tabs (here by blanks):\n  FRAMES F                                  F 1 to 8; once, before all calls\n  ENROL caller pages allowance share L ASF  share and ASF 0 or 1\n  CREATE caller name pages\n  DESTROY caller space\n  PERMIT caller space guest R|W\n  ISOLATE caller space\n  QUERY caller owner name\n  ADD caller space R|W\n  REMOVE caller token\n  LOAD caller register value\n  MODE caller 0|1                           0 primary, 1 access-register\n  KEY caller key                            access key, 0 to 15\n  BLOCK caller space address key 0|1        key and mark of a block\n  FETCH caller register address length\n  STORE caller register address HEX         data as uppercase hex pairs\n  RESET caller\n\nA header, then one reply a line: line number, answer number, value or \"-\".\nA read or a write that fails is told on standard error.\n",
        b"session --help",
        b"session: takes no argument but --help; requests come from standard input\n",
    );
}
