// The page: characters and marks in two lent slices, each as long as the page has cells.
// What each function leaves in them is defined in specs/Page.antt.
// (Two slices and no struct of them: the C interface lends two, and most functions pass on or change only one.)
#![tactic(auto)]

// What a mark says of its cell: bit 0 of the mark, bit 1, and so on.
#[derive(Clone, Copy)]
pub enum Attribute {
    Protected,
    // Changed by a key since the last block.
    Modified,
    // The visual ones, bits 2 to 6.
    Bold,
    Underlined,
    Blinking,
    Reversed,
    Concealed,
    // Of M-103.
    Numeric,
    Alphabetic,
    // Of M-107.
    Required,
}

mod editing;
mod erasing;
mod marks;
mod scrolling;
mod storing;
mod tests;

pub use editing::{blank_cells, delete_character, insert_blank};
pub use erasing::erase;
pub use marks::{
    Mark, has_attribute, is_unprotected, is_valid_mark, mark_at, set_mark, takes, with_attribute,
    without_attribute,
};
pub use scrolling::{scroll_down, scroll_up};
pub use storing::{clear_modified, store_text, store_typed};
pub use tests::{
    is_all_blank, is_all_protected, is_valid_page, some_have, take_from_left, take_from_right,
};
