// The text of one field of a line, by its kind: what `fields` reads back.
#![tactic(auto)]

ghost use Rattle.std.specs.Prelude.{◌+◌, true, [], ◌∷◌, ◌≡◌, length};
ghost use Rattle.model.specs.Written.{right_text, field_text, takes_field};
ghost use Rattle.digits.specs.Wrote.{HasRoom, Adds};
ghost use Rattle.fields.specs.Fields.{kind_of};
ghost use Rattle.forms.specs.Sizes.{most_of};

use digits::Text;
use forms::Kind;

// Whether the reader would take a field: any number, any right.
#[tactic(auto, unfolding(model::specs::Written::takes_field, lists::specs::Choice::both))]
pub fn takes_field(kind: Kind, value: u64, lent: &[u8]) -> bool
    ensures { result ≡ takes_field (kind_of kind) value lent.now }
{
    match kind {
        Kind::Number | Kind::Right => true,
        Kind::Name => letters::takes_name(value),
        Kind::Data => value <= 257 && value <= lent.len() as u64,
    }
}

// Any number but 0 is a write, as in `right_text` of the model.
#[tactic(auto, unfolding(model::specs::Written::right_text, lists::specs::Choice::choose))]
fn right_letter(value: u64) -> u8
    ensures { result ∷ [] ≡ right_text value }
{
    if value == 0 {
        return b'R';
    }
    b'W'
}

#[tactic(auto, unfolding(forms::specs::Sizes::most_of, model::specs::Written::field_text))]
fn put_field(text: &mut Text, kind: Kind, value: u64, lent: &[u8])
    requires room { HasRoom text.old (most_of (kind_of kind)) }
    requires taken { takes_field (kind_of kind) value lent.now ≡ true }
    ensures { Adds text.old (field_text (kind_of kind) value lent.now) text.new }
{
    match kind {
        Kind::Number => text.put_decimal(value),
        Kind::Name => letters::put_name(text, value),
        Kind::Right => text.put_byte(right_letter(value)),
        Kind::Data => text.put_hex(&lent[..value as usize]),
    }
}

// A tab, and the field behind it.
pub fn put_next(text: &mut Text, kind: Kind, value: u64, lent: &[u8])
    requires room { HasRoom text.old (1 + most_of (kind_of kind)) }
    requires taken { takes_field (kind_of kind) value lent.now ≡ true }
    ensures { Adds text.old (9 ∷ field_text (kind_of kind) value lent.now) text.new }
{
    text.put_byte(b'\t');
    put_field(text, kind, value, lent);
}
