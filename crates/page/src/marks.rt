// The marks of a cell, a bit for each; see specs/Marks.antt.
ghost use Rattle.std.specs.Prelude.{◌≡◌, ◌^◌, ◌<◌, length, get_or, set};
ghost use Rattle.page.specs.Marks.{bit_of, has_attribute, with_attribute, without_attribute};
ghost use Rattle.page.specs.Marks.{valid_mark, numeric_takes, alphabetic_takes, takes, unprotected};

use crate::Attribute;

// What a cell has beside its character, a bit for each mark; bits 10 to 15 are zero.
pub type Mark = u16;

// The mark that has this attribute and no other. (The bits are as the C interface has them, not the enum's numbers.)
fn mark_of(attribute: Attribute) -> Mark
    ensures { result ≡ 2 ^ bit_of attribute }
{
    match attribute {
        Attribute::Protected => 1,
        Attribute::Modified => 2,
        Attribute::Bold => 4,
        Attribute::Underlined => 8,
        Attribute::Blinking => 0x10,
        Attribute::Reversed => 0x20,
        Attribute::Concealed => 0x40,
        Attribute::Numeric => 0x80,
        Attribute::Alphabetic => 0x100,
        Attribute::Required => 0x200,
    }
}

// Whether a cell with these marks is protected, modified, ..
#[tactic(auto, using(crate::proofs::Bits::masks))]
pub fn has_attribute(mark: Mark, attribute: Attribute) -> bool
    ensures { result ≡ has_attribute attribute mark }
{
    mark & mark_of(attribute) != 0
}

// The mark with this attribute; the others stay.
#[tactic(auto, using(crate::proofs::Bits::masks))]
pub fn with_attribute(mark: Mark, attribute: Attribute) -> Mark
    ensures { result ≡ with_attribute attribute mark }
{
    mark | mark_of(attribute)
}

// The mark without it.
#[tactic(auto, using(crate::proofs::Bits::masks))]
pub fn without_attribute(mark: Mark, attribute: Attribute) -> Mark
    ensures { result ≡ without_attribute attribute mark }
{
    mark & !mark_of(attribute)
}

// A protected cell has no bit above the visual ones. Another one may have bit 9, and is not numeric and alphabetic: the
// two together make 180 hexadecimal at least.
#[tactic(auto, using(crate::proofs::Valid::limits))]
pub fn is_valid_mark(mark: Mark) -> bool
    ensures { result ≡ valid_mark mark }
{
    if has_attribute(mark, Attribute::Protected) {
        return mark < 0x80;
    }
    without_attribute(mark, Attribute::Required) < 0x180
}

// Whether a numeric cell takes a character other than 20.
#[tactic(auto, using(crate::proofs::Taking::taking))]
fn numeric_takes(character: u8) -> bool
    ensures { result ≡ numeric_takes character }
{
    matches!(character, b'-' | b'.' | b'0'..=b'9')
}

// Whether an alphabetic cell does.
#[tactic(auto, using(crate::proofs::Taking::taking))]
fn alphabetic_takes(character: u8) -> bool
    ensures { result ≡ alphabetic_takes character }
{
    matches!(character, b' ' | b'-' | b'.' | b'A'..=b'Z' | b'a'..=b'z')
}

// Whether a cell with these marks takes a character that a key brings. (Asked in turn, as the definition is read.)
#[tactic(auto, using(words::proofs::Choosing::tests), unfolding(crate::specs::Marks::takes))]
pub fn takes(mark: Mark, character: u8) -> bool
    ensures { result ≡ takes mark character }
{
    if character == 0x20 {
        return true;
    }
    if has_attribute(mark, Attribute::Numeric) {
        return numeric_takes(character);
    }
    if has_attribute(mark, Attribute::Alphabetic) {
        return alphabetic_takes(character);
    }
    true
}

// The one function that reads a mark by the number of its cell.
pub fn mark_at(marks: &[Mark], cell: usize) -> Mark
    requires { cell < length marks.now }
    ensures { result ≡ get_or marks.now cell 0 }
{
    marks[cell]
}

// The one function that writes one so.
pub fn set_mark(marks: &mut [Mark], cell: usize, mark: Mark)
    requires { cell < length marks.old }
    ensures { marks.new ≡ set marks.old cell mark }
{
    marks[cell] = mark;
}

// The one function that says whether a cell is unprotected.
#[tactic(auto, unfolding(crate::specs::Marks::unprotected))]
pub fn is_unprotected(marks: &[Mark], cell: usize) -> bool
    requires { cell < length marks.now }
    ensures { result ≡ unprotected marks.now cell }
{
    !has_attribute(mark_at(marks, cell), Attribute::Protected)
}
