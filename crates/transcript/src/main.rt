// The transcript program of document 01: frames in, one a line; a line out for each call. With an argument, whatever it
// is, the terminal is drawn after each line (a dump). What a line means and prints is defined and proved in
// crates/frames; here bytes are read, and the text of each call is written.
#![tactic(auto)]

ghost use Rattle.std.specs.Prelude.{◌≡◌, length};
ghost use Rattle.frames.specs.Sessions.{line_done};
ghost use Rattle.frames.specs.Transcript.{SoFar, after_byte, after_bytes};
ghost use Rattle.frames.specs.Held.{line_in, session_in, Holds};

use frames::{Held, Printing};
use page::Mark;
use std::io;
use std::io::{Read, Write};
use std::rt::Env as _;

const NEW_LINE: u8 = b'\n';

// A frame makes no more calls than this (`line_done`, crates/frames/specs/Sessions.antt).
const MOST_CALLS: u64 = 256;

// No input lasts this many reads.
const MOST_READS: u64 = 0x1000000000000000;

// The session, and how many bytes of the line being read have come.
#[derive(Clone, Copy)]
struct Reading {
    held: Option<Held>,
    digits: usize,
}

// The rooms that a session is held in: the line being read, the page and the output. (The text of a call or a dump is
// lent beside them: out of one struct into the same one the compiler writes digit by digit, and else many at a time.)
#[derive(Drop)]
struct Rooms {
    line: [u8; 512],
    characters: [u8; 7680],
    marks: [Mark; 7680],
    out: [u8; 65536],
}

// The room for the text of a call or a dump.
type Text = [u8; 131087];

// The session's terminal, drawn as text; nothing without a session. The two tests give what `draw` asks for, and the
// state of every session passes them.
fn show<W: Write>(printing: &mut Printing<W>, held: Option<Held>, rooms: &Rooms, text: &mut Text) {
    let Some(Held { state, .. }) = held else {
        return;
    };
    if !state.size.is_listed() {
        return;
    }
    if !state.is_valid() {
        return;
    }
    let cells = state.size.rows * state.size.columns;
    let end = drawing::draw(
        state,
        &rooms.characters[..cells],
        &rooms.marks[..cells],
        text,
        0,
    );
    printing.print(&text[..end]);
}

// A finished line: its frame's calls, and what each prints. The session is then the definition's. The clause on the
// line's length, here and in do_line: the type alone tells it to a caller only where the field is read again.
fn do_calls<W: Write>(
    printing: &mut Printing<W>,
    held: Option<Held>,
    rooms: &mut Rooms,
    text: &mut Text,
    digits: usize,
) -> Option<Held>
    ensures line_len { length rooms.new.line ≡ 512 }
    ensures done { session_in result rooms.new.characters rooms.new.marks
        ≡ (line_done (line_in rooms.old.line digits)
        (session_in held rooms.old.characters rooms.old.marks)).after }
{
    let kind = frames::frame(&mut rooms.line, digits);
    let mut here = held;
    let mut from = 1;
    for _ in 0..MOST_CALLS {
        let printed = frames::call(
            here,
            kind,
            &rooms.line,
            from,
            &mut rooms.characters,
            &mut rooms.marks,
            &mut rooms.out,
            text,
        );
        printing.print(&text[..printed.end]);
        here = printed.held;
        let Some(rest) = printed.rest else {
            return here;
        };
        from = rest;
    }
    here
}

// In dump mode the terminal is drawn after each line.
fn do_line<W: Write>(
    printing: &mut Printing<W>,
    held: Option<Held>,
    rooms: &mut Rooms,
    text: &mut Text,
    digits: usize,
    dumping: bool,
) -> Option<Held>
    ensures line_len { length rooms.new.line ≡ 512 }
    ensures done { session_in result rooms.new.characters rooms.new.marks
        ≡ (line_done (line_in rooms.old.line digits)
        (session_in held rooms.old.characters rooms.old.marks)).after }
{
    let after = do_calls(printing, held, rooms, text, digits);
    if dumping {
        show(printing, after, rooms, text);
    }
    after
}

// Where the line so far and the session are held, they are held after the byte too. (What is read is lent, here and
// below: handed over for each byte, the session would be copied for each.)
fn take_byte<W: Write>(
    printing: &mut Printing<W>,
    reading: &mut Reading,
    byte: u8,
    rooms: &mut Rooms,
    text: &mut Text,
    dumping: bool,
)
    ensures { (read : SoFar) →
        Holds read reading.old.held reading.old.digits
        rooms.old.line rooms.old.characters rooms.old.marks →
        Holds (after_byte byte read) reading.new.held reading.new.digits
        rooms.new.line rooms.new.characters rooms.new.marks }
{
    if byte != NEW_LINE {
        reading.digits = frames::collect(&mut rooms.line, reading.digits, byte);
        return;
    }
    reading.held = do_line(printing, reading.held, rooms, text, reading.digits, dumping);
    reading.digits = 0;
}

fn take_bytes<W: Write>(
    printing: &mut Printing<W>,
    reading: &mut Reading,
    bytes: &[u8],
    rooms: &mut Rooms,
    text: &mut Text,
    dumping: bool,
)
    ensures { (read : SoFar) →
        Holds read reading.old.held reading.old.digits
        rooms.old.line rooms.old.characters rooms.old.marks →
        Holds (after_bytes bytes.now read) reading.new.held reading.new.digits
        rooms.new.line rooms.new.characters rooms.new.marks }
{
    for &byte in bytes {
        take_byte(printing, reading, byte, rooms, text, dumping);
    }
}

// A last line that lacks its 0A counts.
fn end_input<W: Write>(
    printing: &mut Printing<W>,
    reading: Reading,
    rooms: &mut Rooms,
    text: &mut Text,
    dumping: bool,
) {
    if reading.digits != 0 {
        do_line(printing, reading.held, rooms, text, reading.digits, dumping);
    }
}

fn read_all<R: Read, W: Write>(
    from: &mut R,
    printing: &mut Printing<W>,
    input: &mut [u8],
    rooms: &mut Rooms,
    text: &mut Text,
    dumping: bool,
) -> io::Result<()> {
    let mut here = Reading {
        held: None,
        digits: 0,
    };
    for _ in 0..MOST_READS {
        let count = from.read(input)?;
        if count == 0 {
            end_input(printing, here, rooms, text, dumping);
            return printing.done;
        }
        take_bytes(printing, &mut here, &input[..count], rooms, text, dumping);
        printing.done?;
    }
    Ok(())
}

fn main(rt: HostRuntime) -> io::Result<()> {
    let mut input = [0u8; 4096];
    let mut rooms = Rooms {
        line: [0; 512],
        characters: [0; 7680],
        marks: [0; 7680],
        out: [0; 65536],
    };
    let mut text = [0u8; 131087];
    let mut word = [0u8; 4096];
    let dumping = rt.arg(1, &mut word).is_ok();
    let mut printing = Printing {
        to: rt.stdout(),
        done: Ok(()),
    };
    read_all(
        &mut rt.stdin(),
        &mut printing,
        &mut input,
        &mut rooms,
        &mut text,
        dumping,
    )
}
