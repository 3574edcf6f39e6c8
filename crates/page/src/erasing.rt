// Cells erased: 20, with marks 0.
ghost use Rattle.std.specs.Prelude.{◌≡◌, ◌<◌, ◌≤◌, length};
ghost use Rattle.page.specs.Page.{page_of, erasable, HasErased};

use crate::marks::{Mark, is_unprotected, set_mark};

// Only erasure mode lets erasing at a protected cell.
#[tactic(auto, using(words::proofs::Choosing::tests), unfolding(crate::specs::Page::erasable))]
fn is_erasable(marks: &[Mark], cell: usize, mode: bool) -> bool
    requires { cell < length marks.now }
    ensures { result ≡ erasable mode marks.now cell }
{
    mode || is_unprotected(marks, cell)
}

// Erases the cells from `from` to before `to`, and counts them.
pub fn erase(characters: &mut [u8], marks: &mut [Mark], from: usize, to: usize, mode: bool) -> usize
    requires { (from ≤ to) × (to ≤ length characters.old) × (length marks.old ≡ length characters.old) }
    ensures { HasErased mode from to
        (page_of characters.old marks.old)
        (page_of characters.new marks.new) result }
{
    let mut count = 0;
    for cell in from..to {
        if is_erasable(marks, cell, mode) {
            characters[cell] = 0x20;
            set_mark(marks, cell, 0);
            count += 1;
        }
    }
    count
}
