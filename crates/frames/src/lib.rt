// The frames of the transcript program: a line read, its frame, and what its calls print. What they mean is defined in
// specs/.
#![tactic(auto)]

ghost use Rattle.std.specs.Prelude.{◌≡◌, List, ◌++◌, ℕ, ◌+◌, ◌*◌, ◌<◌, ◌≤◌, length, take, drop, set, IfSome};
ghost use Rattle.words.specs.Output.{Wrote, placed};
ghost use Rattle.page.specs.Page.{Page};
ghost use Rattle.terminal.specs.Answers.{given};
ghost use Rattle.numerals.specs.Hexadecimal.{bytes_in};
ghost use Rattle.frames.specs.Frames.{frame_in, frame_of, start, host, key};
ghost use Rattle.frames.specs.Printing.{line_of, printed, refusal};
ghost use Rattle.frames.specs.Sessions.{Session, call_of, uncalled};
ghost use Rattle.frames.specs.Held.{longer, line_in, kind_of, frame_at, kept, session_in};
ghost use Rattle.frames.specs.Held.{lent, Enough, CallDone, CallMade};

mod printing;

use page::Mark;
pub use printing::Printing;
use state::State;
use terminal::Reply;

// What a line that is a frame says. The host bytes stand in the line from place 1 to before the place named.
#[derive(Clone, Copy)]
pub enum Kind {
    Start(u8, u8),
    Host(usize),
    Key(u16),
}

// A session that goes on, beside the two lent slices that its page stands first in.
#[derive(Clone, Copy)]
pub struct Held {
    pub cells: usize,
    pub state: State,
}

// After a call: the session, where the line printed ends, the place in the line that the call came to, and the place to
// carry on from, if there is more. So of every call `from` tells how many host bytes were taken, of the last one too.
#[derive(Clone, Copy)]
pub struct Printed {
    pub held: Option<Held>,
    pub end: usize,
    pub from: usize,
    pub rest: Option<usize>,
}

#[tactic(auto, using(crate::proofs::Framing::kinds))]
fn kind_of(bytes: &[u8]) -> Option<Kind>
    ensures { result ≡ kind_of (frame_in bytes.now) }
{
    match bytes {
        [0, rows, columns] => Some(Kind::Start(*rows, *columns)),
        [1, ..] if bytes.len() <= 256 => Some(Kind::Host(bytes.len())),
        [2, high, low] => Some(Kind::Key(u16::from_be_bytes([*high, *low]))),
        _ => None,
    }
}

// A byte of a line, which has so many already: how many it has then. The count is a number beside the line, as the
// definitions `longer` and `line_in` have it: a struct of both would be no plainer. The line is a slice, as are the
// page and the output below: a caller's may be parts of a larger room.
pub fn collect(line: &mut [u8], digits: usize, byte: u8) -> usize
    requires { length line.old ≡ 512 }
    ensures { (result ≡ longer digits) × (line.new ≡ set line.old digits byte) }
{
    if digits < 512 {
        line[digits] = byte;
        return digits + 1;
    }
    513
}

// The bytes that a finished line says, left in the place of their digits.
pub fn bytes(line: &mut [u8], digits: usize) -> usize
    requires { length line.old ≡ 512 }
    ensures { Wrote 0 (bytes_in (line_in line.old digits)) line.old result line.new
        × (result ≤ 256) }
{
    if 512 < digits {
        return 0;
    }
    if !numerals::is_hexadecimal(&line[..digits]) {
        return 0;
    }
    numerals::decode(line, digits)
}

// The frame that a finished line says; its bytes are left in the place of their digits.
pub fn frame(line: &mut [u8], digits: usize) -> Option<Kind>
    requires { length line.old ≡ 512 }
    ensures { (result ≡ kind_of (frame_of (line_in line.old digits)))
        × (line.new ≡ placed 0 (bytes_in (line_in line.old digits)) line.old) }
{
    let count = bytes(line, digits);
    kind_of(&line[..count])
}

// A line of these bytes.
fn put_line(text: &mut [u8], head: &[u8], sent: &[u8]) -> usize
    requires { 2 * length head.now + 2 * length sent.now < length text.old }
    ensures { Wrote 0 (line_of (head.now ++ sent.now))
        text.old result text.new }
{
    let middle = numerals::put_hex(text, 0, head);
    let end = numerals::put_hex(text, middle, sent);
    output::put_byte(text, end, b'\n')
}

// The line of a call that was answered so. Here and below the text may be longer than a line needs.
fn print(text: &mut [u8], reply: Reply, out: &[u8]) -> usize
    requires { (reply.sent ≤ length out.now) × (reply.sent ≤ 65536) × (131087 ≤ length text.old) }
    ensures { (page : Page) → Wrote 0 (printed (given reply page out.now))
        text.old result text.new }
{
    let cursor = reply.state.cursor;
    let [.., row] = cursor.row.to_be_bytes();
    let [.., column] = cursor.column.to_be_bytes();
    let [.., first, second, third, last] = reply.stored.to_be_bytes();
    let head = [
        terminal::number_of(reply.answer),
        row,
        column,
        first,
        second,
        third,
        last,
    ];
    put_line(text, &head, &out[..reply.sent])
}

// FF, where there is no call.
fn print_refusal(text: &mut [u8]) -> usize
    requires { 131087 ≤ length text.old }
    ensures { Wrote 0 refusal text.old result text.new }
{
    let end = numerals::put_hex(text, 0, &[0xFF]);
    output::put_byte(text, end, b'\n')
}

// The session in its own form: one that goes on has no more cells than the largest page.
fn settled(held: Option<Held>) -> Option<Held>
    ensures { (characters marks : List ℕ) → length characters ≡ 7680 →
        result ≡ kept (session_in held characters marks) }
{
    let Held { cells, state } = held?;
    Some(Held {
        cells: cells.min(7680),
        state,
    })
}

// No call is made, and the session stays.
fn no_call(held: Option<Held>, from: usize, text: &mut [u8]) -> Printed
    requires { 131087 ≤ length text.old }
    ensures { (characters marks out : List ℕ) → length characters ≡ 7680 → length marks ≡ 7680 →
        CallDone (uncalled (session_in held characters marks)) from
        (lent characters marks out text.old)
        result (lent characters marks out text.new) }
{
    let end = print_refusal(text);
    Printed {
        held: settled(held),
        end,
        from,
        rest: None,
    }
}

// Characters and marks are two parameters here and below, as the entries take them.
fn start_call(
    rows: u8,
    columns: u8,
    from: usize,
    characters: &mut [u8],
    marks: &mut [Mark],
    out: &[u8],
    text: &mut [u8],
) -> Printed
    requires { Enough (lent characters.old marks.old out.now text.old) }
    ensures { (before : Session) → CallDone (call_of (start rows columns) before) from
        (lent characters.old marks.old out.now text.old)
        result (lent characters.new marks.new out.now text.new) }
{
    let rows = usize::from(rows);
    let columns = usize::from(columns);
    let cells = (rows * columns).min(7680);
    let reply = terminal::start(rows, columns, &mut characters[..cells], &mut marks[..cells]);
    let end = print(text, reply, out);
    let state = reply.state;
    let good = terminal::number_of(reply.answer) == 0;
    Printed {
        held: good.then_some(Held { cells, state }),
        end,
        from,
        rest: None,
    }
}

// The host bytes of the line from place `from` to before `to`.
fn host_call(
    held: Option<Held>,
    line: &[u8],
    from: usize,
    to: usize,
    characters: &mut [u8],
    marks: &mut [Mark],
    out: &mut [u8],
    text: &mut [u8],
) -> Printed
    requires enough { Enough (lent characters.old marks.old out.old text.old) }
    requires line_len { (length line.now ≡ 512) × (from ≤ 512) }
    ensures { CallMade (host (drop from (take to line.now))) held from
        (lent characters.old marks.old out.old text.old)
        result (lent characters.new marks.new out.new text.new) }
{
    let Some(going) = held else {
        return no_call(held, from, text);
    };
    let cells = going.cells.min(7680);
    let last = to.min(512);
    let first = from.min(last);
    let reply = terminal::host(
        going.state,
        &mut characters[..cells],
        &mut marks[..cells],
        &line[first..last],
        out,
    );
    let end = print(text, reply, out);
    let state = reply.state;
    let on = from + reply.taken;
    let more = terminal::number_of(reply.answer) == 3;
    Printed {
        held: Some(Held { cells, state }),
        end,
        from: on,
        rest: more.then_some(on),
    }
}

fn key_call(
    held: Option<Held>,
    number: u16,
    from: usize,
    characters: &mut [u8],
    marks: &mut [Mark],
    out: &mut [u8],
    text: &mut [u8],
) -> Printed
    requires { Enough (lent characters.old marks.old out.old text.old) }
    ensures { CallMade (key number) held from
        (lent characters.old marks.old out.old text.old)
        result (lent characters.new marks.new out.new text.new) }
{
    let Some(going) = held else {
        return no_call(held, from, text);
    };
    let cells = going.cells.min(7680);
    let reply = terminal::key(
        going.state,
        &mut characters[..cells],
        &mut marks[..cells],
        usize::from(number),
        out,
    );
    let end = print(text, reply, out);
    let state = reply.state;
    Printed {
        held: Some(Held { cells, state }),
        end,
        from,
        rest: None,
    }
}

// One call of a frame, if the line is one, whose host bytes before `from` are taken. A kind has its own call: a match.
pub fn call(
    held: Option<Held>,
    kind: Option<Kind>,
    line: &[u8],
    from: usize,
    characters: &mut [u8],
    marks: &mut [Mark],
    out: &mut [u8],
    text: &mut [u8],
) -> Printed
    requires enough { Enough (lent characters.old marks.old out.old text.old) }
    requires line_len { (length line.now ≡ 512) × (from ≤ 512) }
    ensures call_made { CallMade (frame_at kind line.now from) held from
        (lent characters.old marks.old out.old text.old)
        result (lent characters.new marks.new out.new text.new) }
    ensures from_bound { result.from ≤ 512 }
    ensures rest_bound { IfSome result.rest (λ rest. rest ≤ 512) }
{
    match kind {
        Some(Kind::Start(rows, columns)) => start_call(
            rows, columns, from, characters, marks, out, text,
        ),
        Some(Kind::Host(to)) => host_call(held, line, from, to, characters, marks, out, text),
        Some(Kind::Key(number)) => key_call(held, number, from, characters, marks, out, text),
        None => no_call(held, from, text),
    }
}
