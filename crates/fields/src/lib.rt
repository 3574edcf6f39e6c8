// Fields: unprotected cells that follow on one another in page order; and the searches of the keys.
// What each function gives is defined in specs/Fields.antt, specs/Searches.antt and specs/Required.antt.
#![tactic(auto)]

ghost use Rattle.std.specs.Prelude.{◌≡◌, Bool, ℕ, ◌-◌, ◌*◌, ◌<◌, ◌≤◌, length};
ghost use Rattle.places.specs.Places.{place_of};
ghost use Rattle.words.specs.Choice.{◌and◌};
ghost use Rattle.words.specs.Lists.{some};
ghost use Rattle.page.specs.Marks.{unprotected};
ghost use Rattle.page.specs.Page.{page_of};
ghost use Rattle.fields.specs.Fields.{joined, starts_field, field_start, field_end};
ghost use Rattle.fields.specs.Fields.{field_from, fields_of, fields_from};
ghost use Rattle.fields.specs.Searches.{last_field, next_field, previous_field};
ghost use Rattle.fields.specs.Searches.{first_unprotected_from, first_unprotected, next_unprotected};
ghost use Rattle.fields.specs.Required.{is_left_blank, some_left_blank};

use page::{Attribute, Mark};
use places::Place;

// Whether the cell and the one before it belong to one field; before the first there is none.
fn is_joined(marks: &[Mark], cell: usize) -> bool
    requires { cell < length marks.now }
    ensures { result ≡ joined (unprotected marks.now) cell }
{
    cell != 0 && page::is_unprotected(marks, cell - 1) && page::is_unprotected(marks, cell)
}

// Whether a field starts at the cell.
pub fn starts_field(marks: &[Mark], cell: usize) -> bool
    requires { cell < length marks.now }
    ensures { result ≡ starts_field (unprotected marks.now) cell }
{
    page::is_unprotected(marks, cell) && !is_joined(marks, cell)
}

// The first cell of the field that has the cell.
pub fn field_start(marks: &[Mark], place: Place) -> Place
    requires { place.cell < length marks.now }
    ensures { result ≡ place_of place.columns (field_start (unprotected marks.now) place.cell) }
{
    // A while: it asks about the place where it stops, and a walk back gives the one before that.
    let mut here = place;
    while is_joined(marks, here.cell) {
        here = here.back();
    }
    here
}

// The cell after the last of the field that has the cell.
pub fn field_end(marks: &[Mark], cell: usize) -> usize
    requires { cell < length marks.now }
    ensures { result ≡ field_end (unprotected marks.now) (length marks.now) cell }
{
    if !page::is_unprotected(marks, cell) {
        return cell + 1;
    }
    for end in cell + 1..marks.len() {
        if !page::is_unprotected(marks, end) {
            return end;
        }
    }
    marks.len() // no protected cell comes after it
}

// The first cell at the place or after it that passes the test; the place may be one past the page.
fn seek<F: Fn(usize) -> bool>(cells: usize, place: Place, test: F) -> Option<Place>
    requires on_page { (place.cell ≤ cells) × (cells ≤ 7680) }
    requires callable { (cell : ℕ) → cell < cells → F.pre test cell }
    ensures { (passes : ℕ → Bool) →
        ((cell : ℕ) (answer : Bool) → cell < cells → F.post test cell answer → answer ≡ passes cell) →
        result ≡ first_unprotected_from passes place.columns place.cell (cells - place.cell) }
{
    for here in place.onward(cells) {
        if test(here.cell) {
            return Some(here);
        }
    }
    None
}

// The first cell of the page that passes the test.
fn seek_first<F: Fn(usize) -> bool>(cells: usize, columns: usize, test: F) -> Option<Place>
    requires on_page { cells ≤ 7680 }
    requires callable { (cell : ℕ) → cell < cells → F.pre test cell }
    ensures { (passes : ℕ → Bool) →
        ((cell : ℕ) (answer : Bool) → cell < cells → F.post test cell answer → answer ≡ passes cell) →
        result ≡ first_unprotected passes columns cells }
{
    seek(cells, Place::first(columns), test)
}

// The first cell after the place that passes the test, else the first of the page.
fn seek_round<F: Fn(usize) -> bool + Copy>(cells: usize, place: Place, test: F) -> Option<Place>
    requires on_page { (place.cell < cells) × (cells ≤ 7680) }
    requires callable { (cell : ℕ) → cell < cells → F.pre test cell }
    ensures { (passes : ℕ → Bool) →
        ((cell : ℕ) (answer : Bool) → cell < cells → F.post test cell answer → answer ≡ passes cell) →
        result ≡ next_unprotected passes place.columns cells place.cell }
{
    let after = seek(cells, place.next(), test);
    after.or_else(|| seek_first(cells, place.columns, test))
}

// The last field that starts before the place; the place may be one past the page.
fn seek_field_back(marks: &[Mark], place: Place) -> Option<Place>
    requires { place.cell ≤ length marks.now }
    ensures { result ≡ last_field place.columns
        (fields_from (unprotected marks.now) (length marks.now) 0 place.cell) }
{
    for here in place.backward() {
        if starts_field(marks, here.cell) {
            return Some(here);
        }
    }
    None
}

// The last field of the page.
fn last_field(marks: &[Mark], rows: usize, columns: usize) -> Option<Place>
    requires { (0 < length marks.now) × (rows ≤ 48) × (columns ≤ 160) × (length marks.now ≡ rows * columns) }
    ensures { result ≡ last_field columns (fields_of (unprotected marks.now) (length marks.now)) }
{
    seek_field_back(marks, Place::end(rows, columns))
}

// Key 260: the first field that starts after the place, else the first.
pub fn next_field(marks: &[Mark], place: Place) -> Option<Place>
    requires { (place.cell < length marks.now) × (length marks.now ≤ 7680) }
    ensures { result ≡ next_field place.columns place.cell
        (fields_of (unprotected marks.now) (length marks.now)) }
{
    seek_round(marks.len(), place, |cell| starts_field(marks, cell))
}

// Key 261: the last field that starts before the place, else the last.
pub fn previous_field(marks: &[Mark], place: Place, rows: usize) -> Option<Place>
    requires { (place.cell < length marks.now) × (rows ≤ 48) × (place.columns ≤ 160) ×
        (length marks.now ≡ rows * place.columns) }
    ensures { result ≡ previous_field place.columns place.cell
        (fields_of (unprotected marks.now) (length marks.now)) }
{
    let before = seek_field_back(marks, place);
    before.or_else(|| last_field(marks, rows, place.columns))
}

// Key 262: the first unprotected cell of the page.
pub fn first_unprotected(marks: &[Mark], columns: usize) -> Option<Place>
    requires { length marks.now ≤ 7680 }
    ensures { result ≡ first_unprotected (unprotected marks.now) columns (length marks.now) }
{
    seek_first(
        marks.len(),
        columns,
        |cell| page::is_unprotected(marks, cell),
    )
}

// Where the cursor goes after a typed character: the next unprotected cell, going round the page.
pub fn next_unprotected(marks: &[Mark], place: Place) -> Option<Place>
    requires { (place.cell < length marks.now) × (length marks.now ≤ 7680) }
    ensures { result
        ≡ next_unprotected (unprotected marks.now) place.columns (length marks.now) place.cell }
{
    seek_round(marks.len(), place, |cell| page::is_unprotected(marks, cell))
}

// M-107: whether a field has a required cell and holds nothing but 20s.
// (Bounds, not the parts: see page::take_from_right.)
fn is_left_blank(characters: &[u8], marks: &[Mark], from: usize, to: usize) -> bool
    requires { (from ≤ to) × (to ≤ length marks.now) × (length characters.now ≡ length marks.now) }
    ensures { result ≡ is_left_blank
        (page_of characters.now marks.now) (record { start = from; length = to - from }) }
{
    page::some_have(marks, from, to, Attribute::Required)
        && page::is_all_blank(characters, from, to)
}

// Whether such a field starts at the cell.
fn starts_left_blank(characters: &[u8], marks: &[Mark], cell: usize) -> bool
    requires { (cell < length marks.now) × (length characters.now ≡ length marks.now) }
    ensures { result ≡ (starts_field (unprotected marks.now) cell
        and is_left_blank (page_of characters.now marks.now)
        (field_from (unprotected marks.now) (length marks.now) cell)) }
{
    starts_field(marks, cell) && is_left_blank(characters, marks, cell, field_end(marks, cell))
}

// Whether one starts at any cell.
fn seek_left_blank(characters: &[u8], marks: &[Mark]) -> bool
    requires { length characters.now ≡ length marks.now }
    ensures { result ≡ some (is_left_blank (page_of characters.now marks.now))
        (fields_of (unprotected marks.now) (length marks.now)) }
{
    (0..marks.len()).any(|cell| starts_left_blank(characters, marks, cell))
}

// Whether the page has such a field.
pub fn has_left_blank(characters: &[u8], marks: &[Mark]) -> bool
    requires { length characters.now ≡ length marks.now }
    ensures { result ≡ some_left_blank (page_of characters.now marks.now) }
{
    page::some_have(marks, 0, marks.len(), Attribute::Required)
        && seek_left_blank(characters, marks)
}
