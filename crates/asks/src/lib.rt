// What a call asks to see of the tables. Which elements it then sees is `view_of` of the crate views.
#![tactic(auto)]

ghost use Rattle.std.specs.Prelude.{◌≡◌};
ghost use Rattle.asks.specs.Asks.{asks_by, asks_for, plainly};

use model::{Call, Operation, Request};

// The token that a call uses: an argument of its own, or what a register of the caller's holds.
#[derive(Clone, Copy, PartialEq, Eq)]
pub enum Uses {
    Token { token: u32 },
    Register { register: u32 },
}

// A space as a call names it.
#[derive(Clone, Copy, PartialEq, Eq)]
pub enum Sought {
    Id { id: u32 },
    Named { owner: u32, name: u64 },
}

// What a call asks to see. `other` is the guest whose permit it looks at; `sought` the space that it names, if any; `takes` tells
// whether it takes an entry of its list; from `address` on it moves bytes of the space.
#[derive(Clone, Copy, PartialEq, Eq)]
pub struct Asks {
    pub caller: u32,
    pub other: u32,
    pub uses: Uses,
    pub sought: Option<Sought>,
    pub takes: bool,
    pub address: u32,
}

// A call that asks for its caller alone. What other calls ask for differs from this in a few fields.
fn plain(caller: u32) -> Asks
    ensures { result ≡ plainly caller }
{
    Asks {
        caller,
        other: caller,
        uses: Uses::Token { token: 0 },
        sought: None,
        takes: false,
        address: 0,
    }
}

#[tactic(auto, unfolding(crate::specs::Asks::asks_by))]
pub fn asked_by(call: &Call) -> Asks
    ensures { result ≡ asks_by call.now.caller.guest call.now.operation }
{
    let plain = plain(call.caller.guest);
    match call.operation {
        Operation::Permit { id, guest, .. } => Asks {
            other: guest,
            sought: Some(Sought::Id { id }),
            ..plain
        },
        Operation::Isolate { id } | Operation::Block { id, .. } => Asks {
            sought: Some(Sought::Id { id }),
            ..plain
        },
        Operation::Query { owner, name } => Asks {
            sought: Some(Sought::Named { owner, name }),
            ..plain
        },
        Operation::Add { id, .. } => Asks {
            sought: Some(Sought::Id { id }),
            takes: true,
            ..plain
        },
        Operation::Remove { token } => Asks {
            uses: Uses::Token { token },
            ..plain
        },
        Operation::Fetch { register, address } | Operation::Store { register, address } => Asks {
            uses: Uses::Register { register },
            address,
            ..plain
        },
        Operation::Enrol { .. }
        | Operation::Create { .. }
        | Operation::Destroy { .. }
        | Operation::Load { .. }
        | Operation::Mode { .. }
        | Operation::Reset
        | Operation::Key { .. } => plain,
    }
}

// A line that is no call asks for nothing that matters.
#[tactic(auto, unfolding(crate::specs::Asks::asks_for))]
pub fn asked(request: &Request) -> Asks
    ensures { result ≡ asks_for request.now }
{
    match request {
        Request::Call { call, .. } => asked_by(call),
        Request::Frames { .. } | Request::NotRead => plain(0),
    }
}
