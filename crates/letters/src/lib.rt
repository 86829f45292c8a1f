// Names as text. A space's name is eight bytes in one number, blanks on the right; a call's name, in the table of forms, is a 1 and
// then its letters.
#![tactic(auto)]

ghost use Rattle.std.specs.Prelude.{◌≡◌, ◌==◌, ◌||◌, leb, length};
ghost use Rattle.lists.specs.Choice.{both};
ghost use Rattle.model.specs.Lines.{no_blank};
ghost use Rattle.model.specs.Names.{name_bytes};
ghost use Rattle.model.specs.Written.{unpadded, name_text, one_field, takes_name};
ghost use Rattle.digits.specs.Wrote.{HasRoom, Adds};
ghost use Rattle.letters.specs.Words.{after_first, word_text};

use digits::Text;

// The bytes of a number, the highest first.
fn bytes_of(n: u64) -> [u8; 8]
    ensures { result ≡ name_bytes n }
{
    n.to_be_bytes()
}

// What stands before the blanks on the right.
fn unpadded(name: &[u8]) -> &[u8]
    ensures { result.now ≡ unpadded name.now }
{
    let mut rest = name;
    while let Some((last, before)) = rest.split_last() {
        if *last != b' ' {
            return rest;
        }
        rest = before;
    }
    rest
}

// Whether a byte can't stand in a name's field: a blank is refused there, a tab ends the field, and a newline the line.
fn is_outside(b: u8) -> bool
    ensures { result ≡ (b == 32 || b == 9 || b == 10) }
{
    matches!(b, b' ' | b'\t' | b'\n')
}

fn is_field(text: &[u8]) -> bool
    ensures { result ≡ both (both (leb 1 (length text.now)) (no_blank text.now)) (one_field text.now) }
{
    !text.is_empty() && text.iter().all(|b| !is_outside(*b))
}

// Whether the reader would take a name.
pub fn takes_name(name: u64) -> bool
    ensures { result ≡ takes_name name }
{
    is_field(unpadded(&bytes_of(name)))
}

pub fn put_name(text: &mut Text, name: u64)
    requires { HasRoom text.old 8 }
    ensures { Adds text.old (name_text name) text.new }
{
    text.put_bytes(unpadded(&bytes_of(name)));
}

// The letters of a call's name: they stand behind the 1.
fn letters_of(word: &[u8]) -> &[u8]
    ensures { result.now ≡ after_first word.now }
{
    match word.iter().position(|b| *b != 0) {
        Some(i) => &word[i + 1..],
        None => &[],
    }
}

// A call's name, at the start of a line.
pub fn put_word(text: &mut Text, word: u64)
    requires { HasRoom text.old 8 }
    ensures { Adds text.old (word_text word) text.new }
{
    text.put_bytes(letters_of(&bytes_of(word)));
}
