// Document 02, M-100: start, host and key for a program in C, with numbers and byte slices only. They ask nothing of
// what arrives. What each gives and leaves is defined in specs/Panel.antt; docs/PANEL.md is for who calls them. The
// crate panel_c exports the three under the same names.
#![tactic(auto)]

ghost use Rattle.std.specs.Prelude.{◌≡◌, [], ◌*◌, ◌≤◌, length, MatchResult};
ghost use Rattle.words.specs.Output.{placed};
ghost use Rattle.page.specs.Page.{page_of};
ghost use Rattle.state.specs.Tests.{size_fits};
ghost use Rattle.terminal.specs.Answers.{number_of};
ghost use Rattle.record.specs.Record.{record_of, state_in};
ghost use Rattle.panel.specs.Panel.{lent_of, result_bytes, marks_said, mark_bytes, wrong_length, wrong_content};
ghost use Rattle.panel.specs.Panel.{RefusedBy, Admitted, Turned};
ghost use Rattle.panel.specs.Panel.{PanelStartAllows, PanelHostAllows, PanelKeyAllows};

use page::Mark;
use state::State;
use terminal::{Answer, Reply};

// As many bytes as the result slice has.
pub const RESULT_LENGTH: usize = 13;

// As many cells as the largest page has.
const MOST_CELLS: usize = 7680;

// The number, and the lowest four bytes of each count.
fn result_bytes(number: u8, taken: usize, sent: usize, stored: usize) -> [u8; RESULT_LENGTH]
    ensures { result ≡ result_bytes number taken sent stored }
{
    let [t0, t1, t2, t3, ..] = taken.to_le_bytes();
    let [s0, s1, s2, s3, ..] = sent.to_le_bytes();
    let [c0, c1, c2, c3, ..] = stored.to_le_bytes();
    [number, t0, t1, t2, t3, s0, s1, s2, s3, c0, c1, c2, c3]
}

// The result slice, written whole.
fn tell(res: &mut [u8], number: u8, taken: usize, sent: usize, stored: usize)
    requires { length res.old ≡ 13 }
    ensures { res.new ≡ result_bytes number taken sent stored }
{
    res.copy_from_slice(&result_bytes(number, taken, sent, stored));
}

// The state's record. One that is the same already is not written: a refused call writes nothing there.
fn pack(packed: &mut [u8], state: State)
    requires { length packed.old ≡ 195 }
    ensures { packed.new ≡ record_of state }
{
    let bytes = record::record_of(state);
    if packed[..] != bytes[..] {
        packed.copy_from_slice(&bytes);
    }
}

// How many marks so many bytes say for so many cells.
fn marks_said(cells: usize, bytes: usize) -> usize
    ensures { result ≡ marks_said cells bytes }
{
    if cells <= MOST_CELLS && bytes == cells * 2 {
        cells
    } else {
        0
    }
}

// The page's marks. Those that are the same already are not written: a refused call writes nothing there.
fn pack_marks(marks: &mut [u8], own: &[Mark])
    requires { length own.now * 2 ≤ length marks.old }
    ensures { marks.new ≡ placed 0 (mark_bytes own.now) marks.old }
{
    if !record::says_numbers(marks, own) {
        record::put_numbers(marks, 0, own);
    }
}

// What an entry handed back, told to C.
fn hand_on(reply: Reply, packed: &mut [u8], res: &mut [u8]) -> u8
    requires packed_len { length packed.old ≡ 195 }
    requires res_len { length res.old ≡ 13 }
    ensures value { result ≡ number_of reply.answer }
    ensures packed_after { packed.new ≡ record_of reply.state }
    ensures res_after { res.new
        ≡ result_bytes (number_of reply.answer) reply.taken reply.sent reply.stored }
{
    let number = terminal::number_of(reply.answer);
    pack(packed, reply.state);
    tell(res, number, reply.taken, reply.sent, reply.stored);
    number
}

// M-100's own refusals, which write nothing.
fn wrong_length(packed: &[u8], res: &[u8]) -> Result<(), Answer>
    ensures { MatchResult result
        (λ _. wrong_length packed.now res.now ≡ 0)
        (λ refusal. RefusedBy refusal (wrong_length packed.now res.now)) }
{
    if res.len() != RESULT_LENGTH {
        return Err(Answer::WrongSize);
    }
    if packed.len() != record::LENGTH {
        return Err(Answer::WrongState);
    }
    Ok(())
}

// The size that the record says is listed, and the page lent is of it.
fn size_fits(packed: &[u8], characters: &[u8], marks: &[Mark]) -> bool
    ensures { result ≡ size_fits (state_in packed.now).size (page_of characters.now marks.now) }
{
    record::state_in(packed).size.fits(characters, marks)
}

// Bad content is refused, but a wrong size before it.
fn wrong_content(packed: &[u8], characters: &[u8], marks: &[Mark]) -> Result<(), Answer>
    ensures { MatchResult result
        (λ _. wrong_content packed.now (page_of characters.now marks.now) ≡ 0)
        (λ refusal. RefusedBy refusal (wrong_content packed.now (page_of characters.now marks.now))) }
{
    if !size_fits(packed, characters, marks) {
        return Err(Answer::WrongSize);
    }
    if !record::is_good(packed) {
        return Err(Answer::WrongState);
    }
    Ok(())
}

// What is lent to a call on a terminal, tested; its marks are read as our own. A refusal is told to C, but M-100's own.
fn admit(
    packed: &[u8],
    characters: &[u8],
    marks: &[u8],
    own: &mut [Mark],
    res: &mut [u8],
) -> Result<(), Answer>
    requires { length own.old ≡ marks_said (length characters.now) (length marks.now) }
    ensures { MatchResult result
        (λ _. Admitted packed.now characters.now marks.now res.old own.new × (res.new ≡ res.old))
        (λ refusal. Turned packed.now characters.now marks.now res.old refusal res.new) }
{
    wrong_length(packed, res)?;
    record::read_numbers(marks, own);
    let tested = wrong_content(packed, characters, own);
    if let Err(refusal) = tested {
        tell(res, terminal::number_of(refusal), 0, 0, 0);
    }
    tested
}

// The three work on marks of our own, as the bytes lent say them; C's slices stand side by side.

// A fresh page of so many rows and columns.
pub fn panel_start(
    rows: usize,
    columns: usize,
    packed: &mut [u8],
    characters: &mut [u8],
    marks: &mut [u8],
    res: &mut [u8],
) -> u8
    ensures { PanelStartAllows rows columns
        (lent_of packed.old characters.old marks.old [] res.old)
        result (lent_of packed.new characters.new marks.new [] res.new) }
{
    if let Err(refusal) = wrong_length(packed, res) {
        return terminal::number_of(refusal);
    }
    let cells = marks_said(characters.len(), marks.len());
    let mut room = [0; MOST_CELLS];
    let own = &mut room[..cells];
    record::read_numbers(marks, own);
    let reply = terminal::start(rows, columns, characters, own);
    pack_marks(marks, own);
    hand_on(reply, packed, res)
}

// Host bytes, at most 65,536. What is sent is written from the output's start on.
// (panel_key has this shape too: both are what C calls, and what they share is in admit, hand_on and pack_marks.)
pub fn panel_host(
    packed: &mut [u8],
    characters: &mut [u8],
    marks: &mut [u8],
    bytes: &[u8],
    out: &mut [u8],
    res: &mut [u8],
) -> u8
    ensures { PanelHostAllows
        (lent_of packed.old characters.old marks.old out.old
        res.old)
        bytes.now result
        (lent_of packed.new characters.new marks.new out.new
        res.new) }
{
    let cells = marks_said(characters.len(), marks.len());
    let mut room = [0; MOST_CELLS];
    let own = &mut room[..cells];
    if let Err(refusal) = admit(packed, characters, marks, own, res) {
        return terminal::number_of(refusal);
    }
    let reply = terminal::host(record::state_in(packed), characters, own, bytes, out);
    pack_marks(marks, own);
    hand_on(reply, packed, res)
}

// A key, by its number. What is sent is written from the output's start on.
pub fn panel_key(
    packed: &mut [u8],
    characters: &mut [u8],
    marks: &mut [u8],
    key: usize,
    out: &mut [u8],
    res: &mut [u8],
) -> u8
    ensures { PanelKeyAllows
        (lent_of packed.old characters.old marks.old out.old
        res.old)
        key result
        (lent_of packed.new characters.new marks.new out.new
        res.new) }
{
    let cells = marks_said(characters.len(), marks.len());
    let mut room = [0; MOST_CELLS];
    let own = &mut room[..cells];
    if let Err(refusal) = admit(packed, characters, marks, own, res) {
        return terminal::number_of(refusal);
    }
    let reply = terminal::key(record::state_in(packed), characters, own, key, out);
    pack_marks(marks, own);
    hand_on(reply, packed, res)
}
