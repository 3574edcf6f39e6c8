// The page scrolled by a row.
ghost use Rattle.std.specs.Prelude.{◌≡◌, ◌≤◌, length};
ghost use Rattle.page.specs.Page.{page_of, scrolled_up, scrolled_down};

use crate::marks::Mark;

// A row of 20s comes in at the bottom. A scroll moves protected cells too, whatever the erasure mode.
pub fn scroll_up(characters: &mut [u8], marks: &mut [Mark], columns: usize)
    requires { (columns ≤ length characters.old) × (length marks.old ≡ length characters.old) }
    ensures { page_of characters.new marks.new
        ≡ scrolled_up columns (page_of characters.old marks.old) }
{
    let kept = characters.len() - columns;
    characters.copy_within(columns.., 0);
    characters[kept..].fill(0x20);
    marks.copy_within(columns.., 0);
    marks[kept..].fill(0);
}

// A row of 20s comes in at the top. (Not one function with the other: what moves, from where and to where all differ.)
pub fn scroll_down(characters: &mut [u8], marks: &mut [Mark], columns: usize)
    requires { (columns ≤ length characters.old) × (length marks.old ≡ length characters.old) }
    ensures { page_of characters.new marks.new
        ≡ scrolled_down columns (page_of characters.old marks.old) }
{
    let kept = characters.len() - columns;
    characters.copy_within(..kept, columns);
    characters[..columns].fill(0x20);
    marks.copy_within(..kept, columns);
    marks[..columns].fill(0);
}
