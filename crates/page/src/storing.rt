// One cell stored, by text or by a key; and what a block that was sent leaves of the marks.
ghost use Rattle.std.specs.Prelude.{◌≡◌, ◌<◌, length};
ghost use Rattle.page.specs.Page.{page_of, text_stored, typed, mark_after_block, modified_cleared};

use crate::Attribute;
use crate::marks::{Mark, has_attribute, mark_at, set_mark, with_attribute, without_attribute};

// Text from the host: the character, and the pen for its marks.
#[tactic(auto, unfolding(crate::specs::Page::text_stored))]
pub fn store_text(characters: &mut [u8], marks: &mut [Mark], cell: usize, character: u8, pen: Mark)
    requires { (cell < length characters.old) × (length marks.old ≡ length characters.old) }
    ensures { page_of characters.new marks.new
        ≡ text_stored cell character pen (page_of characters.old marks.old) }
{
    characters[cell] = character;
    set_mark(marks, cell, pen);
}

// Keys 32 to 126: the character; its cell keeps its marks and becomes modified.
#[tactic(auto, unfolding(crate::specs::Page::typed))]
pub fn store_typed(characters: &mut [u8], marks: &mut [Mark], cell: usize, character: u8)
    requires { (cell < length characters.old) × (length marks.old ≡ length characters.old) }
    ensures { page_of characters.new marks.new
        ≡ typed cell character (page_of characters.old marks.old) }
{
    characters[cell] = character;
    let mark = mark_at(marks, cell);
    set_mark(marks, cell, with_attribute(mark, Attribute::Modified));
}

// A block that was sent clears modified, but not of a protected cell.
#[tactic(auto, using(words::proofs::Choosing::tests), unfolding(crate::specs::Page::mark_after_block))]
fn after_block(mark: Mark) -> Mark
    ensures { result ≡ mark_after_block mark }
{
    if has_attribute(mark, Attribute::Protected) {
        return mark;
    }
    without_attribute(mark, Attribute::Modified)
}

// Sending clears modified on all unprotected cells.
#[tactic(auto, using(words::proofs::Writing::changing), unfolding(crate::specs::Page::modified_cleared))]
pub fn clear_modified(marks: &mut [Mark])
    ensures { marks.new ≡ modified_cleared marks.old }
{
    for mark in marks.iter_mut() {
        *mark = after_block(*mark);
    }
}
