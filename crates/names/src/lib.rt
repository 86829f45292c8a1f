// The form of a name, tested quickly. A name is taken apart as a number and looked up in a table: by its bytes, one after the
// other, the soundness test takes 17 % more instructions.
#![tactic(auto)]

ghost use Rattle.std.specs.Prelude.{◌≡◌, ◌<◌};
ghost use Rattle.model.specs.Names.{letter, name_rest, good_name};
ghost use Rattle.names.specs.Later.{LaterTable, later_byte, last_four};

// The bytes that may stand in a name after its first, 0 to 9 and A to Z: 1 at each of them in a table, 0 at every other. A caller
// with many names makes it once.
#[derive(Drop)]
pub struct Later {
    // Numbers, which `moves::put` lays into it: it moves bytes alone.
    table: [u8; 256],
    ghost right: { LaterTable table },
}

fn later_table() -> [u8; 256]
    ensures { LaterTable result }
{
    let mut table = [0u8; 256];
    moves::put(&mut table[48..], &[1; 10]);
    moves::put(&mut table[65..], &[1; 26]);
    table
}

#[tactic(auto, using(std::proofs::lemmas::Bool::Decides::nat_tests), unfolding(lists::specs::Choice::both, model::specs::Names::letter))]
fn is_letter(b: u64) -> bool
    ensures { result ≡ letter b }
{
    (65..=90).contains(&b)
}

impl Later {
    pub fn new() -> Later {
        Later {
            table: later_table(),
        }
    }

    fn has(&self, b: u64) -> bool
        requires { b < 256 }
        ensures { result ≡ later_byte b }
    {
        self.table[b as usize] == 1
    }

    // Letters or digits, and from the first other byte on blanks: one comparison for all that is left.
    fn good_end(&self, n: u64) -> bool
        ensures { result ≡ name_rest (last_four n) }
    {
        if !self.has(n / 16777216 % 256) {
            return n % 4294967296 == 538976288;
        }
        if !self.has(n / 65536 % 256) {
            return n % 16777216 == 2105376;
        }
        if !self.has(n / 256 % 256) {
            return n % 65536 == 8224;
        }
        if !self.has(n % 256) {
            return n % 256 == 32;
        }
        true
    }

    pub fn good_name(&self, n: u64) -> bool
        ensures { result ≡ good_name n }
    {
        let first = n / 72057594037927936;
        if !is_letter(first) {
            return false;
        }
        if !self.has(n / 281474976710656 % 256) {
            return n % 72057594037927936 == 9042521604759584;
        }
        if !self.has(n / 1099511627776 % 256) {
            return n % 281474976710656 == 35322350018592;
        }
        if !self.has(n / 4294967296 % 256) {
            return n % 1099511627776 == 137977929760;
        }
        self.good_end(n)
    }
}

pub fn good_name(n: u64) -> bool
    ensures { result ≡ good_name n }
{
    Later::new().good_name(n)
}
