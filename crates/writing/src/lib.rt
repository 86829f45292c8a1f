// One line of a session, written: what `lines` reads back. What is written is `written` of the model, and what is answered
// `write_answer`.
#![tactic(auto)]

ghost use Rattle.std.specs.Prelude.{◌≤◌, ◌<◌, true, ◌++◌, ◌≡◌, length, map};
ghost use Rattle.model.specs.Lines.{calls, form_at};
ghost use Rattle.model.specs.Written.{field_texts, tabbed, takes_fields, write_answer, buffer_after};
ghost use Rattle.digits.specs.Wrote.{HasRoom, Adds};
ghost use Rattle.fields.specs.Fields.{kind_of};
ghost use Rattle.forms.specs.Sizes.{most_in, most_bytes};

use digits::Text;
use forms::Kind;
use model::{Answer, Request};

fn takes_fields(kinds: &[Kind], values: &[u64], lent: &[u8]) -> bool
    requires { length kinds.now ≤ length values.now }
    ensures { result ≡ takes_fields (map kind_of kinds.now) values.now lent.now }
{
    for (kind, value) in kinds.iter().zip(values) {
        if !texts::takes_field(*kind, *value, lent) {
            return false;
        }
    }
    true
}

fn put_fields(text: &mut Text, kinds: &[Kind], values: &[u64], lent: &[u8])
    requires room { HasRoom text.old (most_in (map kind_of kinds.now)) }
    requires taken { takes_fields (map kind_of kinds.now) values.now lent.now ≡ true }
    ensures { Adds text.old (tabbed (field_texts (map kind_of kinds.now) values.now lent.now)) text.new }
{
    for (kind, value) in kinds.iter().zip(values) {
        texts::put_next(text, *kind, *value, lent);
    }
}

// A line of a form: its name and its fields.
fn put_line(text: &mut Text, form: usize, values: &[u64; forms::MOST_FIELDS], lent: &[u8])
    requires known { form < calls }
    requires room { HasRoom text.old most_bytes }
    requires taken { takes_fields (form_at form).kinds values.now lent.now ≡ true }
    ensures { Adds text.old ((form_at form).word ++ tabbed (field_texts (form_at form).kinds values.now lent.now)) text.new }
{
    letters::put_word(text, forms::call_names()[form]);
    put_fields(text, forms::call_kinds(form), values, lent);
}

// Writes a request's line, newline left out, over the first bytes of `out`; the value is its length. The data of a STORE are the first
// bytes lent, as many as the request says. The line is made aside, so that a refusal changes no byte.
pub fn write(request: Request, lent: &[u8], out: &mut [u8]) -> Answer
    ensures value { result ≡ write_answer request lent.now out.old }
    ensures out_after { out.new ≡ buffer_after request lent.now out.old }
{
    let Some(parts) = parting::parts_of(request) else {
        return Answer::NotWritten;
    };
    if !takes_fields(forms::call_kinds(parts.form), &parts.values, lent) {
        return Answer::NotWritten;
    }
    let mut line = [0u8; forms::MOST_BYTES];
    let mut text = Text {
        out: &mut line,
        at: 0,
    };
    put_line(&mut text, parts.form, &parts.values, lent);
    let n = text.at;
    if out.len() < n {
        return Answer::RoomTooSmall;
    }
    moves::put(out, &line[..n]);
    Answer::Done { value: n as u32 }
}
