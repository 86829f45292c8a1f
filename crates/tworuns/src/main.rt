// Two runs of one list of calls through `serve`, which differ in a byte first held in space 3 and in the data of a store that
// reaches it: the list of which cases proofs `Instance` speaks. Only what guest 2 fetches from space 3 may differ; once space 3
// is destroyed, the bytes of its frame are the same too.
#![tactic(auto)]

use model::{Answer, Call, Caller, Operation, Right, Settings, State};

const TEMP: u64 = 0x54454d5020202020;

const ONE: Caller = Caller { guest: 1 };

const TWO: Caller = Caller { guest: 2 };

// A write that fails is passed over: whoever compares the output sees what is missing. These lines are in each program that prints,
// since a crate of theirs would hold nothing else.
fn say(rt: &impl Print, text: &[u8]) {
    let _ = rt.write_all(text);
}

fn print(rt: &impl Print, n: u32) {
    let _ = print!(rt; " {n}");
}

// The tables and the scratch that each call leaves for the next.
#[derive(Drop)]
struct Run {
    state: State,
    scratch: [u8; 16384],
}

impl Run {
    fn serve(&mut self, caller: Caller, operation: Operation, buffer: &mut [u8]) -> Answer {
        let r = spaces::serve(
            self.state,
            &mut self.scratch,
            Call { caller, operation },
            buffer,
        );
        self.state = r.state;
        r.answer
    }

    // A call with no buffer: its answer and value.
    fn ask(&mut self, rt: &impl Print, caller: Caller, operation: Operation) {
        let answer = self.serve(caller, operation, &mut []);
        print(rt, spaces::number(answer));
        print(rt, spaces::value(answer));
        say(rt, b"\n");
    }

    // A fetch or store through register 1: its answer, and the buffer after it.
    fn transfer(
        &mut self,
        rt: &impl Print,
        caller: Caller,
        operation: Operation,
        mut buffer: [u8; 2],
    ) {
        let answer = self.serve(caller, operation, &mut buffer);
        print(rt, spaces::number(answer));
        for b in buffer {
            print(rt, u32::from(b));
        }
        say(rt, b"\n");
    }

    fn fetch(&mut self, rt: &impl Print) {
        say(rt, b"FETCH by guest 2:");
        let fetch = Operation::Fetch {
            register: 1,
            address: 0,
        };
        self.transfer(rt, TWO, fetch, [9; 2]);
    }

    fn store(&mut self, rt: &impl Print, bytes: [u8; 2]) {
        say(rt, b"STORE by guest 1:");
        let store = Operation::Store {
            register: 1,
            address: 0,
        };
        self.transfer(rt, ONE, store, bytes);
    }

    // Guest 1 isolates space 3, and guest 2's fetch is refused; guest 1 destroys it. Then the bytes of its frame that were stored.
    fn withdraw(&mut self, rt: &impl Print) {
        say(rt, b"ISOLATE by guest 1:");
        self.ask(rt, ONE, Operation::Isolate { id: 3 });
        self.fetch(rt);
        say(rt, b"DESTROY by guest 1:");
        self.ask(rt, ONE, Operation::Destroy { id: 3 });
        say(rt, b"frame 2:");
        print(rt, u32::from(self.scratch[8192]));
        print(rt, u32::from(self.scratch[8193]));
        say(rt, b"\n");
    }

    // Guest 2 gets its frame in a space of its own, and fetches from there.
    fn take_frame(&mut self, rt: &impl Print) {
        say(rt, b"REMOVE by guest 2:");
        self.ask(rt, TWO, Operation::Remove { token: 2 });
        say(rt, b"CREATE by guest 2:");
        let create = Operation::Create {
            name: TEMP,
            pages: 1,
        };
        self.ask(rt, TWO, create);
        say(rt, b"ADD by guest 2:");
        let add = Operation::Add {
            id: 4,
            right: Right::Read,
        };
        self.ask(rt, TWO, add);
        say(rt, b"LOAD by guest 2:");
        let load = Operation::Load {
            register: 1,
            value: 65538,
        };
        self.ask(rt, TWO, load);
        self.fetch(rt);
    }
}

// A guest in access-register mode with token 2 in register 1. The state goes by value, as the public face takes it; likewise below.
fn ready_guest(s: State, scratch: &[u8], caller: Caller) -> State {
    let a = spaces::mode(s, scratch, caller, 1);
    spaces::load(a.state, scratch, caller, 1, 2).state
}

fn settings(share: u32) -> Settings {
    Settings {
        pages: 1,
        allowance: 2,
        share,
        list: 4,
        asf: 1,
    }
}

// Two guests with a primary each, and space 3 of guest 1.
fn spaces_made(scratch: &mut [u8]) -> State {
    let r = spaces::fresh(4);
    let a = spaces::enrol(r.state, scratch, ONE, settings(1));
    let b = spaces::enrol(a.state, scratch, TWO, settings(0));
    spaces::create(b.state, scratch, ONE, TEMP, 1).state
}

// Guest 1 has added space 3 for writing; guest 2 is permitted to read it, and has added it.
fn shared(before: State, scratch: &[u8]) -> State {
    let b = spaces::permit(before, scratch, ONE, 3, 2, Right::Read);
    let c = spaces::add(b.state, scratch, ONE, 3, Right::Write);
    let d = spaces::add(c.state, scratch, TWO, 3, Right::Read);
    ready_guest(ready_guest(d.state, scratch, ONE), scratch, TWO)
}

fn start() -> State {
    let mut made_in = [0u8; 16384];
    let scratch = [0u8; 16384];
    shared(spaces_made(&mut made_in), &scratch)
}

fn show(rt: &impl Print, scratch: [u8; 16384], bytes: [u8; 2]) {
    let mut run = Run {
        state: start(),
        scratch,
    };
    run.fetch(rt);
    run.store(rt, bytes);
    run.fetch(rt);
    run.withdraw(rt);
    run.take_frame(rt);
}

fn main(rt: HostRuntime) {
    let mut scratch = [0u8; 16384];
    say(&rt, b"first run\n");
    show(&rt, scratch, [1, 2]);
    scratch[8193] = 7;
    say(&rt, b"second run\n");
    show(&rt, scratch, [3, 4]);
}
