// The block that is sent to the host, if there is room: its length is worked out first where there might be too little.
// Its bytes are defined in specs/Blocks.antt.
#![tactic(auto)]

ghost use Rattle.std.specs.Prelude.{◌≡◌, List, ℕ, ◌+◌, ◌-◌, ◌*◌, ◌<◌, ◌≤◌, leb, length};
ghost use Rattle.words.specs.Output.{Wrote};
ghost use Rattle.page.specs.Page.{page_of};
ghost use Rattle.blocks.specs.Blocks.{is_in_block, bytes_at, block, writing_block};

use output::NoRoom;
use page::{Attribute, Mark};
use places::Place;

// Whether a field is sent: every one in a full block, else one in which something is modified.
// (Bounds, not the part: the definition of a field names its cells by their numbers on the page.)
fn is_in_block(marks: &[Mark], full: bool, from: usize, to: usize) -> bool
    requires { (from ≤ to) × (to ≤ length marks.now) }
    ensures { result ≡ is_in_block full marks.now (record { start = from; length = to - from }) }
{
    full || page::some_have(marks, from, to, Attribute::Modified)
}

// How many bytes the block has for a cell:
// no more than a page's 7,680 cells and the 10 bytes of a place, so that the sum fits.
fn length_at(marks: &[Mark], place: Place, full: bool) -> usize
    requires { (place.cell < length marks.now) × (length marks.now ≤ 7680) }
    ensures by_index { (characters : List ℕ) → length characters ≡ length marks.now →
        result ≡ length (bytes_at full place.columns (page_of characters marks.now) place.cell) }
    ensures upper_bound { result ≤ 7690 }
{
    if !fields::starts_field(marks, place.cell) {
        return 0;
    }
    let end = fields::field_end(marks, place.cell);
    if !is_in_block(marks, full, place.cell, end) {
        return 0;
    }
    output::place_length(place.row, place.column) + (end - place.cell)
}

// How many bytes the block has.
pub fn block_length(marks: &[Mark], columns: usize, full: bool) -> usize
    requires { length marks.now ≤ 7680 }
    ensures { (characters : List ℕ) → length characters ≡ length marks.now →
        result ≡ length (block full columns (page_of characters marks.now)) }
{
    let mut total = 1;
    for place in Place::first(columns).onward(marks.len()) {
        total += length_at(marks, place, full);
    }
    total
}

// As many bytes as no block exceeds (`longest_block`).
const LONGEST: usize = 35138;

// Whether the block has no more bytes than the room.
fn fits(marks: &[Mark], columns: usize, full: bool, room: usize) -> bool
    requires { (0 < columns) × (columns ≤ 160) × (length marks.now ≤ 48 * columns) }
    ensures { (characters : List ℕ) → length characters ≡ length marks.now →
        result ≡ leb (length (block full columns (page_of characters marks.now))) room }
{
    LONGEST <= room || block_length(marks, columns, full) <= room
}

// What the block has for a cell, written.
fn put_at(
    out: &mut [u8],
    at: usize,
    characters: &[u8],
    marks: &[Mark],
    place: Place,
    full: bool,
) -> usize
    requires columns_bound { (place.columns ≤ 160) × (place.cell < length marks.now) ×
        (length marks.now ≤ 48 * place.columns) × (length characters.now ≡ length marks.now) }
    requires cell_in_bounds { at + length (bytes_at full place.columns (page_of characters.now marks.now) place.cell)
        ≤ length out.old }
    ensures { Wrote at
        (bytes_at full place.columns (page_of characters.now marks.now) place.cell)
        out.old result out.new }
{
    if !fields::starts_field(marks, place.cell) {
        return at;
    }
    let end = fields::field_end(marks, place.cell);
    let cell = place.cell;
    if !is_in_block(marks, full, cell, end) {
        return at;
    }
    let next = output::put_place(out, at, place.row, place.column, b'f');
    output::put_all(out, next, &characters[cell..end])
}

// The whole block, written.
fn put_block(
    out: &mut [u8],
    at: usize,
    characters: &[u8],
    marks: &[Mark],
    columns: usize,
    full: bool,
) -> usize
    requires columns_nonzero { (0 < columns) × (columns ≤ 160) × (length marks.now ≤ 48 * columns) ×
        (length characters.now ≡ length marks.now) }
    requires marks_in_bounds { at + length (block full columns (page_of characters.now marks.now)) ≤ length out.old }
    ensures { Wrote at (block full columns (page_of characters.now marks.now))
        out.old result out.new }
{
    let mut next = at;
    for place in Place::first(columns).onward(characters.len()) {
        next = put_at(out, next, characters, marks, place, full);
    }
    output::put_byte(out, next, 0x03)
}

// Sends a block into the room left in the output, clears modified, and says how many bytes the block has; where there
// is too little room nothing happens.
pub fn write_block(
    out: &mut [u8],
    at: usize,
    characters: &[u8],
    marks: &mut [Mark],
    columns: usize,
    full: bool,
) -> Result<usize, NoRoom>
    requires columns_nonzero { (0 < columns) × (columns ≤ 160) × (length marks.old ≤ 48 * columns) ×
        (length characters.now ≡ length marks.old) }
    requires at_in_bounds { at ≤ length out.old }
    ensures { record { answer = result; marks = marks.new; output = out.new }
        ≡ writing_block full columns (page_of characters.now marks.old) at out.old }
{
    let room = out.len() - at;
    if !fits(marks, columns, full, room) {
        return Err(NoRoom);
    }
    let end = put_block(out, at, characters, marks, columns, full);
    page::clear_modified(marks);
    Ok(end - at)
}
