// Any of the fifteen calls as a value. Nothing is asked of the caller: check 1 comes first.
#![tactic(auto)]

ghost use Rattle.model.specs.Promise.{Promise, step_of};

use model::{Answer, Call, Reply, State};
use sound::Sound;

pub fn serve(mut s: State, scratch: &mut [u8], call: Call, buffer: &mut [u8]) -> Reply
    ensures { Promise (step_of s scratch.old call buffer.old) result.answer result.state scratch.new buffer.new }
{
    if !ready::is_ready(&s, scratch.len()) {
        return Reply {
            answer: Answer::Unsound,
            state: s,
        };
    }
    let answer = deciding::serve(&mut Sound { state: &mut s }, scratch, &call, buffer);
    Reply { answer, state: s }
}
