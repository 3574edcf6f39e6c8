// What a lent page may have, and no other; see specs/Page.antt, valid_page.
ghost use Rattle.std.specs.Prelude.{◌≡◌, ◌-◌, ◌<◌, ◌≤◌, length};
ghost use Rattle.std.specs.List.{list_all, zip};
ghost use Rattle.words.specs.Lists.{every};
ghost use Rattle.page.specs.Marks.{is_protected, valid_character, valid_mark, takes};
ghost use Rattle.page.specs.Page.{page_of, valid_page, takes_from_right, takes_from_left, some_have, all_blank};

use crate::Attribute;
use crate::marks::{Mark, has_attribute, is_valid_mark, takes};

// The loops ask every cell, whatever was found before: then the compiler takes many cells at a time.
#[tactic(auto, using(crate::proofs::Asking::asking))]
fn characters_are_valid(characters: &[u8]) -> bool
    ensures { result ≡ every valid_character characters.now }
{
    let mut least = 0x20;
    let mut most = 0x20;
    for character in characters {
        least = least.min(*character);
        most = most.max(*character);
    }
    0x20 <= least && most <= 0x7E
}

#[tactic(auto, using(crate::proofs::Asking::asking))]
fn marks_are_valid(marks: &[Mark]) -> bool
    ensures { result ≡ every valid_mark marks.now }
{
    let mut all = true;
    for mark in marks {
        all &= is_valid_mark(*mark);
    }
    all
}

// Whether no cell is unprotected: then there is no field.
#[tactic(auto, using(crate::proofs::Asking::asking))]
pub fn is_all_protected(marks: &[Mark]) -> bool
    ensures { result ≡ every is_protected marks.now }
{
    let mut all = true;
    for mark in marks {
        all &= has_attribute(*mark, Attribute::Protected);
    }
    all
}

// Whether each of some cells takes the character that comes to it.
fn all_take(marks: &[Mark], characters: &[u8]) -> bool
    ensures { result ≡ list_all (λ p. takes p.0 p.1) (zip marks.now characters.now) }
{
    marks
        .iter()
        .zip(characters)
        .all(|(mark, character)| takes(*mark, *character))
}

// (Bounds, not the parts, here and in the next three: the promises name the cells by their numbers on the page.)
// Key 264: whether the cells from `from` to before `to`, but the last, take what closes up into them.
pub fn take_from_right(characters: &[u8], marks: &[Mark], from: usize, to: usize) -> bool
    requires { (from < to) × (to ≤ length characters.now) × (length marks.now ≡ length characters.now) }
    ensures { result ≡ takes_from_right
        (page_of characters.now marks.now) from (to - from - 1) }
{
    all_take(&marks[from..to - 1], &characters[from + 1..to])
}

// Key 265: whether the cells after `from` and before `to` take what moves right into them.
pub fn take_from_left(characters: &[u8], marks: &[Mark], from: usize, to: usize) -> bool
    requires { (from < to) × (to ≤ length characters.now) × (length marks.now ≡ length characters.now) }
    ensures { result ≡ takes_from_left
        (page_of characters.now marks.now) from (to - from - 1) }
{
    all_take(&marks[from + 1..to], &characters[from..to - 1])
}

// Whether one of the cells from `from` to before `to` is modified, required (M-107), ..
pub fn some_have(marks: &[Mark], from: usize, to: usize, attribute: Attribute) -> bool
    requires { (from ≤ to) × (to ≤ length marks.now) }
    ensures { result ≡ some_have attribute marks.now from (to - from) }
{
    marks[from..to]
        .iter()
        .any(|mark| has_attribute(*mark, attribute))
}

// Whether they hold nothing but 20s.
pub fn is_all_blank(characters: &[u8], from: usize, to: usize) -> bool
    requires { (from ≤ to) × (to ≤ length characters.now) }
    ensures { result ≡ all_blank characters.now from (to - from) }
{
    characters[from..to]
        .iter()
        .all(|character| *character == 0x20)
}

// Document 01's number 2 asks this of the lent page.
#[tactic(auto, using(words::proofs::Choosing::tests), unfolding(crate::specs::Page::valid_page))]
pub fn is_valid_page(characters: &[u8], marks: &[Mark]) -> bool
    ensures { result ≡ valid_page (page_of characters.now marks.now) }
{
    characters_are_valid(characters) && marks_are_valid(marks)
}
