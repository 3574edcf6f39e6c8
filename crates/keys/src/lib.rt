// Document 01, "Fields, keys and blocks": the keys. What each function gives is defined in specs/Keys.antt.
#![tactic(auto)]

ghost use Rattle.std.specs.Prelude.{◌≡◌, Bool, false, List, ℕ, ◌-◌, ◌<◌, ◌≤◌, length};
ghost use Rattle.std.specs.Borrow.{Bor, MutBor};
ghost use Rattle.page.specs.Page.{Page, page_of, part_stored};
ghost use Rattle.steps.specs.Steps.{Valid, terminal_of, cursor_cell};
ghost use Rattle.steps.specs.Told.{told, told_or, tells, written};
ghost use Rattle.steps.specs.Seen.{seen, unprotected_at, takes_at, fields_here, end_here};
ghost use Rattle.keys.specs.Keys.{is_typing, is_editing, is_field_move, is_known, is_locked, is_locked_out};
ghost use Rattle.keys.specs.Keys.{no_field, lacks_cell, carried, is_not_taken, is_held_back, gone_to, typed_step};
ghost use Rattle.keys.specs.Keys.{to_next_field, to_previous_field, to_first_unprotected};
ghost use Rattle.keys.specs.Keys.{field_blanked, rest_shifted, taken_step, key_step};

use output::NoRoom;
use page::Mark;
use places::Place;
use state::State;
use std::ops::Range;
use steps::Step;

// The keys that type a character, those that store in the cursor's field, and those that look for a field: a name for
// each range, since one test with the range as a parameter would only leave the numbers at the call.
#[tactic(auto, using(crate::proofs::Numbers::numbers))]
fn is_typing(key: usize) -> bool
    ensures { result ≡ is_typing key }
{
    matches!(key, 32..=126)
}

#[tactic(auto, using(crate::proofs::Numbers::numbers))]
fn is_editing(key: usize) -> bool
    ensures { result ≡ is_editing key }
{
    matches!(key, 263..=265)
}

#[tactic(auto, using(crate::proofs::Numbers::numbers))]
fn is_field_move(key: usize) -> bool
    ensures { result ≡ is_field_move key }
{
    matches!(key, 260..=261)
}

// Document 01's number 4 is given where this is false.
#[tactic(auto, using(crate::proofs::Numbers::numbers))]
pub fn is_known(key: usize) -> bool
    ensures { result ≡ is_known key }
{
    is_typing(key) || matches!(key, 256..=266 | 268)
}

fn is_locked(state: State) -> bool
    ensures { result ≡ is_locked state }
{
    state.locks.manual || state.locks.soft
}

// Document 01's number 5.
pub fn is_locked_out(key: usize, state: State) -> bool
    ensures { result ≡ is_locked_out key state }
{
    is_locked(state) && key != 268
}

// Whether the cursor's cell is unprotected. Here and below `characters` is lent for the contract, which speaks of the
// whole terminal. (The page stays two slices with `Valid` at each function: so the C interface lends it, and so the
// contracts of the public functions name it.)
fn stands_unprotected(state: State, characters: &[u8], marks: &[Mark]) -> bool
    requires { Valid (terminal_of state characters.now marks.now) }
    ensures { result
        ≡ unprotected_at (terminal_of state characters.now marks.now) (cursor_cell state) }
{
    page::is_unprotected(marks, state.place().cell)
}

fn has_no_field(state: State, characters: &[u8], marks: &[Mark]) -> bool
    requires { Valid (terminal_of state characters.now marks.now) }
    ensures { result ≡ no_field
        (fields_here (terminal_of state characters.now marks.now)) }
{
    page::is_all_protected(marks)
}

// Whether line 7 holds.
pub fn lacks_cell(key: usize, state: State, characters: &[u8], marks: &[Mark]) -> bool
    requires { Valid (terminal_of state characters.now marks.now) }
    ensures { result ≡ lacks_cell key (terminal_of state characters.now marks.now) }
{
    if is_typing(key) || is_editing(key) {
        return !stands_unprotected(state, characters, marks);
    }
    is_field_move(key) && has_no_field(state, characters, marks)
}

// Whether the cursor's cell takes a typed character.
fn takes_here(state: State, characters: &[u8], marks: &[Mark], character: u8) -> bool
    requires { Valid (terminal_of state characters.now marks.now) }
    ensures { result
        ≡ takes_at (terminal_of state characters.now marks.now) (cursor_cell state) character }
{
    page::takes(page::mark_at(marks, state.place().cell), character)
}

// Whether the cells that 264 or 265 changes take what comes to them: the page is asked about the rest of the field.
fn rest_takes<F: FnOnce(&[u8], &[Mark], usize, usize) -> bool>(
    state: State,
    characters: &[u8],
    marks: &[Mark],
    take: F,
) -> bool
    ghost taken: { Page → ℕ → ℕ → Bool }
    requires valid { Valid (terminal_of state characters.now marks.now) }
    requires asked { (cells tags : Bor (List ℕ)) (from to : ℕ) → cells.now ≡ characters.now → tags.now ≡ marks.now →
        from < to → to ≤ length cells.now → length tags.now ≡ length cells.now → F.pre take cells tags from to }
    requires answers { (cells tags : Bor (List ℕ)) (from to : ℕ) (answer : Bool) →
        F.post take cells tags from to answer → answer ≡ taken (page_of cells.now tags.now) from (to - from - 1) }
    ensures { result ≡ taken (seen (terminal_of state characters.now marks.now)) (cursor_cell state)
        (carried (terminal_of state characters.now marks.now)) }
{
    let rest = rest_of_field(state, characters, marks);
    take(characters, marks, rest.start, rest.end)
}

// Whether line 8 holds. (Here and in `act` a key is document 01's number: a caller may pass any, as docs/CONTRACTS.md
// says, and an enum would ask more. The page's functions stand in closures, since by name alone they aren't found yet.)
pub fn is_not_taken(key: usize, state: State, characters: &[u8], marks: &[Mark]) -> bool
    requires { Valid (terminal_of state characters.now marks.now) }
    ensures { result ≡ is_not_taken key (terminal_of state characters.now marks.now) }
{
    match key {
        264 => !rest_takes(state, characters, marks, |cells, tags, from, to| {
            page::take_from_right(cells, tags, from, to)
        }),
        265 => !rest_takes(state, characters, marks, |cells, tags, from, to| {
            page::take_from_left(cells, tags, from, to)
        }),
        _ => is_typing(key) && !takes_here(state, characters, marks, key as u8),
    }
}

// Whether line 9 holds.
pub fn is_held_back(key: usize, state: State, characters: &[u8], marks: &[Mark]) -> bool
    requires { Valid (terminal_of state characters.now marks.now) }
    ensures { result ≡ is_held_back key (terminal_of state characters.now marks.now) }
{
    key == 266 && fields::has_left_blank(characters, marks)
}

fn gone_to(sought: Option<Place>, state: State) -> State
    ensures { result ≡ gone_to sought state }
{
    match sought {
        Some(place) => state.moved_to(place.row, place.column),
        None => state,
    }
}

// 32 to 126.
fn type_character(state: State, characters: &mut [u8], marks: &mut [Mark], character: u8) -> Step
    requires { Valid (terminal_of state characters.old marks.old) }
    ensures { told result (page_of characters.new marks.new)
        ≡ tells (typed_step character (terminal_of state characters.old marks.old)) }
{
    if !stands_unprotected(state, characters, marks) {
        return steps::quiet(state);
    }
    let place = state.place();
    let next = fields::next_unprotected(marks, place);
    page::store_typed(characters, marks, place.cell, character);
    steps::stored(gone_to(next, state), 1, false)
}

// 260, 261 and 262.
fn to_next_field(state: State, characters: &[u8], marks: &[Mark]) -> Step
    requires { Valid (terminal_of state characters.now marks.now) }
    ensures { told result (page_of characters.now marks.now)
        ≡ tells (to_next_field (terminal_of state characters.now marks.now)) }
{
    let sought = fields::next_field(marks, state.place());
    steps::quiet(gone_to(sought, state))
}

fn to_previous_field(state: State, characters: &[u8], marks: &[Mark]) -> Step
    requires { Valid (terminal_of state characters.now marks.now) }
    ensures { told result (page_of characters.now marks.now)
        ≡ tells (to_previous_field (terminal_of state characters.now marks.now)) }
{
    let sought = fields::previous_field(marks, state.place(), state.size.rows);
    steps::quiet(gone_to(sought, state))
}

fn to_first_unprotected(state: State, characters: &[u8], marks: &[Mark]) -> Step
    requires { Valid (terminal_of state characters.now marks.now) }
    ensures { told result (page_of characters.now marks.now)
        ≡ tells (to_first_unprotected (terminal_of state characters.now marks.now)) }
{
    let sought = fields::first_unprotected(marks, state.size.columns);
    match sought {
        Some(place) => steps::quiet(state.moved_to(place.row, place.column)),
        None => steps::quiet(state.moved_to(1, 1)),
    }
}

// 263.
fn blank_field(state: State, characters: &mut [u8], marks: &mut [Mark]) -> Step
    requires { Valid (terminal_of state characters.old marks.old) }
    ensures { told result (page_of characters.new marks.new)
        ≡ tells (field_blanked (terminal_of state characters.old marks.old)) }
{
    if !stands_unprotected(state, characters, marks) {
        return steps::quiet(state);
    }
    let place = state.place();
    let start = fields::field_start(marks, place);
    let end = fields::field_end(marks, place.cell);
    page::blank_cells(characters, marks, start.cell, end);
    steps::stored(
        state.moved_to(start.row, start.column),
        end - start.cell,
        false,
    )
}

// The rest of the cursor's field: its cells from the cursor's on.
fn rest_of_field(state: State, characters: &[u8], marks: &[Mark]) -> Range<usize>
    requires { Valid (terminal_of state characters.now marks.now) }
    ensures { result ≡ record {
      start = cursor_cell state;
      end = end_here (terminal_of state characters.now marks.now);
    } }
{
    let place = state.place();
    let end = fields::field_end(marks, place.cell);
    place.cell..end
}

// 264 and 265: the page changes the rest of the field.
fn shift_rest<F: FnOnce(&mut [u8], &mut [Mark], usize, usize)>(
    state: State,
    characters: &mut [u8],
    marks: &mut [Mark],
    change: F,
) -> Step
    ghost changed: { List ℕ → List ℕ }
    requires valid { Valid (terminal_of state characters.old marks.old) }
    requires takes { (cells tags : MutBor (List ℕ)) (from to : ℕ) → cells.now ≡ characters.old →
        tags.now ≡ marks.old → from < to → to ≤ length cells.now → length tags.now ≡ length cells.now →
        F.pre change cells tags from to }
    requires changes { (cells tags left left_tags : MutBor (List ℕ)) (from to : ℕ) →
        F.post change cells tags from to tt left left_tags →
        page_of left.now left_tags.now ≡ part_stored changed from to (page_of cells.now tags.now) }
    ensures { told result (page_of characters.new marks.new)
        ≡ tells (rest_shifted changed (terminal_of state characters.old marks.old)) }
{
    if !stands_unprotected(state, characters, marks) {
        return steps::quiet(state);
    }
    let rest = rest_of_field(state, characters, marks);
    change(characters, marks, rest.start, rest.end);
    steps::stored(state, rest.end - rest.start, false)
}

// The keys from 256 on that send nothing; a number that is no key does nothing. (A match: no two do the same.)
fn act(state: State, characters: &mut [u8], marks: &mut [Mark], key: usize) -> Step
    requires valid { Valid (terminal_of state characters.old marks.old) }
    requires key_value { (is_typing key ≡ false) × (key ≡ 266 → ⊥) }
    ensures { told result (page_of characters.new marks.new)
        ≡ tells (taken_step key (terminal_of state characters.old marks.old)) }
{
    match key {
        256 => steps::quiet(state.up_by(1)),
        257 => steps::quiet(state.down_by(1)),
        258 => steps::quiet(state.left_by(1)),
        259 => steps::quiet(state.right_by(1)),
        260 => to_next_field(state, characters, marks),
        261 => to_previous_field(state, characters, marks),
        262 => to_first_unprotected(state, characters, marks),
        263 => blank_field(state, characters, marks),
        264 => shift_rest(state, characters, marks, |cells, tags, from, to| {
            page::delete_character(cells, tags, from, to)
        }),
        265 => shift_rest(state, characters, marks, |cells, tags, from, to| {
            page::insert_blank(cells, tags, from, to)
        }),
        268 => steps::quiet(state.unlock()),
        _ => steps::quiet(state),
    }
}

// The step of a key that lines 8 and 9 let pass. Its transmission is written into the output; where it does not fit
// nothing happens.
pub fn step(
    state: State,
    characters: &mut [u8],
    marks: &mut [Mark],
    out: &mut [u8],
    key: usize,
) -> Result<Step, NoRoom>
    requires valid { Valid (terminal_of state characters.old marks.old) }
    requires marks_value { is_not_taken key (terminal_of state characters.old marks.old) ≡ false }
    requires marks_value_2 { is_held_back key (terminal_of state characters.old marks.old) ≡ false }
    ensures { record {
      told = told_or result state (page_of characters.new marks.new);
      output = out.new;
    }
        ≡ written 0 out.old (terminal_of state characters.old marks.old)
        (key_step key (terminal_of state characters.old marks.old)) }
{
    if is_typing(key) {
        return Ok(type_character(state, characters, marks, key as u8));
    }
    if key == 266 {
        return sending::send_block(state, characters, marks, out, 0, state.modes.full);
    }
    Ok(act(state, characters, marks, key))
}
