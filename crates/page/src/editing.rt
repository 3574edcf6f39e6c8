// Keys 263 to 265: a part of the characters changed, and its cells modified.
ghost use Rattle.std.specs.Prelude.{◌≡◌, List, ℕ, ◌-◌, ◌<◌, ◌≤◌, length, slice_range};
ghost use Rattle.std.specs.Borrow.{MutBor};
ghost use Rattle.std.specs.Fn.{FnOnceReturnsAtMut};
ghost use Rattle.page.specs.Page.{page_of, tagged, blanked, closed_up, moved_right, part_stored};

use crate::Attribute;
use crate::marks::{Mark, with_attribute};

// Each cell that an editing key stores becomes modified.
fn tag(marks: &mut [Mark], from: usize, to: usize)
    requires { (from ≤ to) × (to ≤ length marks.old) }
    ensures { marks.new ≡ tagged from to marks.old }
{
    for mark in marks[from..to].iter_mut() {
        *mark = with_attribute(*mark, Attribute::Modified);
    }
}

// The part becomes 20s.
#[tactic(auto, unfolding(crate::specs::Page::blanked))]
fn blank(part: &mut [u8])
    ensures { part.new ≡ blanked part.old }
{
    part.fill(0x20);
}

// The part closes up, with a 20 at its end.
#[tactic(auto, using(crate::proofs::Laws::closes_up_within))]
fn close_up(part: &mut [u8])
    requires { 0 < length part.old }
    ensures { part.new ≡ closed_up part.old }
{
    let last = part.len() - 1;
    part.copy_within(1.., 0);
    part[last] = 0x20;
}

// A 20, the rest moves right, and the last character is lost.
#[tactic(auto, using(crate::proofs::Laws::moves_right))]
fn move_right(part: &mut [u8])
    requires { 0 < length part.old }
    ensures { part.new ≡ moved_right part.old }
{
    let last = part.len() - 1;
    part.copy_within(..last, 1);
    part[0] = 0x20;
}

// A change of the characters from `from` to before `to`, and these cells modified.
fn store_part<F: FnOnce(&mut [u8])>(
    characters: &mut [u8],
    marks: &mut [Mark],
    from: usize,
    to: usize,
    change: F,
)
    ghost changed: { List ℕ → List ℕ }
    requires part { (from ≤ to) × (to ≤ length characters.old) × (length marks.old ≡ length characters.old) }
    requires takes { (part : MutBor (List ℕ)) → part.now ≡ slice_range characters.old from to →
        length part.now ≡ to - from → F.pre change part }
    requires changes { (left : List ℕ) →
        FnOnceReturnsAtMut F.FnOnce change (slice_range characters.old from to) tt left →
        left ≡ changed (slice_range characters.old from to) }
    ensures { page_of characters.new marks.new
        ≡ part_stored changed from to (page_of characters.old marks.old) }
{
    change(&mut characters[from..to]);
    tag(marks, from, to);
}

// (Three functions for three keys: each promises its own change, which `store_part` makes.)
// Key 263: the cells from `from` to before `to` become 20s.
pub fn blank_cells(characters: &mut [u8], marks: &mut [Mark], from: usize, to: usize)
    requires { (from ≤ to) × (to ≤ length characters.old) × (length marks.old ≡ length characters.old) }
    ensures { page_of characters.new marks.new
        ≡ part_stored blanked from to (page_of characters.old marks.old) }
{
    store_part(characters, marks, from, to, blank);
}

// Key 264: the characters from `from` to before `to` close up.
pub fn delete_character(characters: &mut [u8], marks: &mut [Mark], from: usize, to: usize)
    requires { (from < to) × (to ≤ length characters.old) × (length marks.old ≡ length characters.old) }
    ensures { page_of characters.new marks.new
        ≡ part_stored closed_up from to (page_of characters.old marks.old) }
{
    store_part(characters, marks, from, to, close_up);
}

// Key 265: a 20 at `from`, and the characters before `to` move right.
pub fn insert_blank(characters: &mut [u8], marks: &mut [Mark], from: usize, to: usize)
    requires { (from < to) × (to ≤ length characters.old) × (length marks.old ≡ length characters.old) }
    ensures { page_of characters.new marks.new
        ≡ part_stored moved_right from to (page_of characters.old marks.old) }
{
    store_part(characters, marks, from, to, move_right);
}
