// Single calls of the terminal's entries, with any state, lent parts and room: what transcripts can't reach.
// Its lines, in and out, are those of second/FORMATS.md, section "calls".
#![tactic(auto)]

ghost use Rattle.std.specs.Prelude.{◌≡◌, ◌+◌, ◌<◌, ◌≤◌, length};
ghost use Rattle.calls.specs.Frames.{two_at, four_at, Lendable};

use frames::Printing;
use page::Mark;
use state::State;
use std::io;
use std::io::{Read, Write};
use terminal::Reply;

const NEW_LINE: u8 = b'\n';

// No input lasts this many reads.
const MOST_READS: u64 = 0x1000000000000000;

// As many characters and marks are kept, and so large is the largest output.
const KEPT: usize = 8192;

const MOST_ROOM: usize = 65536;

// A host call takes one less.
const MOST_BYTES: usize = 65537;

// What every byte of an output is before a call.
const FILLED: u8 = 0xA5;

// A frame that asks for nothing that can be done.
#[derive(Clone, Copy)]
struct Refused;

// How many of the characters, the marks and the output's bytes are lent to a call: no more than there are.
#[derive(Clone, Copy)]
struct Lent {
    characters: usize,
    marks: usize,
    room: usize,
    ghost lendable: { Lendable characters marks room },
}

// The state, and what is lent to a call.
#[derive(Clone, Copy)]
struct Held {
    state: State,
    lent: Lent,
}

// What is held, and how many bytes of the line being read have come.
#[derive(Clone, Copy)]
struct Reading {
    held: Held,
    digits: usize,
}

// The characters and marks that are kept.
#[derive(Drop)]
struct Parts {
    characters: [u8; 8192],
    marks: [Mark; 8192],
}

// Two bytes of a frame, and four, the high byte first.
fn two(frame: &[u8], at: usize) -> u16
    requires { at + 2 ≤ length frame.now }
    ensures { result ≡ two_at frame.now at }
{
    u16::from_be_bytes([frame[at], frame[at + 1]])
}

fn four(frame: &[u8], at: usize) -> u32
    requires { at + 4 ≤ length frame.now }
    ensures { result ≡ four_at frame.now at }
{
    u32::from_be_bytes([frame[at], frame[at + 1], frame[at + 2], frame[at + 3]])
}

// What a line has in hexadecimal, bytes or marks: at a time as many as 4,096 digits are.
trait Hexadecimal<const PIECE: usize>: Copy {
    fn put(text: &mut [u8; 4096], items: &[Self]) -> usize
        requires { length items.now ≤ PIECE }
        ensures { result ≤ 4096 };
}

// Two digits for each byte; the two bodies are of one shape, and name what writes an item.
impl Hexadecimal<2048> for u8 {
    fn put(text: &mut [u8; 4096], items: &[u8]) -> usize {
        numerals::put_hex(text, 0, items)
    }
}

// Four for each mark.
impl Hexadecimal<1024> for Mark {
    fn put(text: &mut [u8; 4096], items: &[Mark]) -> usize {
        numerals::put_hex_pairs(text, 0, items)
    }
}

fn print_piece<W: Write, T: Hexadecimal<PIECE>, const PIECE: usize>(
    printing: &mut Printing<W>,
    items: &[T],
)
    requires { length items.now ≤ PIECE }
{
    let mut text = [0u8; 4096];
    let end = T::put(&mut text, items);
    printing.print(&text[..end]);
}

fn print_line<W: Write, T: Hexadecimal<PIECE>, const PIECE: usize>(
    printing: &mut Printing<W>,
    items: &[T],
)
    requires { 0 < PIECE }
{
    for piece in items.chunks(PIECE) {
        print_piece(printing, piece);
    }
    printing.print(b"\n");
}

// The low four bytes of a number.
fn print_number<W: Write>(printing: &mut Printing<W>, number: usize) {
    print_piece(printing, &number.to_be_bytes()[4..]);
}

// How many bytes of an output are no longer what it held before the call.
fn count_changed(past: &[u8]) -> usize
    ensures { result ≤ length past.now }
{
    let mut changed = 0;
    for byte in past {
        changed += usize::from(*byte != FILLED);
    }
    changed
}

fn print_changed<W: Write>(printing: &mut Printing<W>, changed: usize)
    requires { changed < 100000 }
{
    let mut text = [b' '; 6];
    numerals::put_five(&mut text, 0, changed);
    printing.print(&text);
}

// All parts of a state, two bytes each.
fn print_state<W: Write>(printing: &mut Printing<W>, state: State) {
    let mut bytes = [0u8; 364];
    for part in 0..damage::PARTS {
        let [.., high, low] = damage::part_of(state, part).to_be_bytes();
        bytes[part * 2] = high;
        bytes[part * 2 + 1] = low;
    }
    print_line(printing, &bytes);
}

// What a call gave and left; its state becomes the state. The bytes sent are cut to the output: what is tried here is
// not relied on.
fn print_call<W: Write>(
    printing: &mut Printing<W>,
    lent: Lent,
    reply: Reply,
    parts: &Parts,
    out: &[u8; MOST_ROOM],
) -> Held {
    let out = &out[..lent.room];
    let sent = reply.sent.min(out.len());
    print_piece(printing, &[terminal::number_of(reply.answer)]);
    print_number(printing, reply.taken);
    print_number(printing, reply.sent);
    print_number(printing, reply.stored);
    print_line(printing, &out[..sent]);
    print_changed(printing, count_changed(&out[sent..]));
    print_state(printing, reply.state);
    print_line(printing, &parts.characters[..lent.characters]);
    print_line(printing, &parts.marks[..lent.marks]);
    Held {
        state: reply.state,
        lent,
    }
}

// The terminal's entries, with as much of the characters, the marks and the output as is lent. A page is two slices, as
// the entries take it.
impl Held {
    fn start(
        self,
        rows: u16,
        columns: u16,
        characters: &mut [u8; 8192],
        marks: &mut [Mark; 8192],
    ) -> Reply {
        terminal::start(
            usize::from(rows),
            usize::from(columns),
            &mut characters[..self.lent.characters],
            &mut marks[..self.lent.marks],
        )
    }

    fn host(
        self,
        characters: &mut [u8; 8192],
        marks: &mut [Mark; 8192],
        bytes: &[u8],
        out: &mut [u8; MOST_ROOM],
    ) -> Reply {
        terminal::host(
            self.state,
            &mut characters[..self.lent.characters],
            &mut marks[..self.lent.marks],
            bytes,
            &mut out[..self.lent.room],
        )
    }

    fn key(
        self,
        characters: &mut [u8; 8192],
        marks: &mut [Mark; 8192],
        number: u32,
        out: &mut [u8; MOST_ROOM],
    ) -> Reply {
        terminal::key(
            self.state,
            &mut characters[..self.lent.characters],
            &mut marks[..self.lent.marks],
            number as usize,
            &mut out[..self.lent.room],
        )
    }
}

// Here and in the next two the output is made for the call: other lines have none.
fn start_call<W: Write>(
    printing: &mut Printing<W>,
    held: Held,
    frame: &[u8],
    parts: &mut Parts,
) -> Result<Held, Refused> {
    if frame.len() != 5 {
        return Err(Refused);
    }
    let rows = two(frame, 1);
    let columns = two(frame, 3);
    let reply = held.start(rows, columns, &mut parts.characters, &mut parts.marks);
    Ok(print_call(printing, held.lent, reply, parts, &[FILLED; MOST_ROOM]))
}

fn host_call<W: Write>(
    printing: &mut Printing<W>,
    held: Held,
    bytes: &[u8],
    parts: &mut Parts,
) -> Held {
    let mut out = [FILLED; MOST_ROOM];
    let reply = held.host(&mut parts.characters, &mut parts.marks, bytes, &mut out);
    print_call(printing, held.lent, reply, parts, &out)
}

fn key_call<W: Write>(
    printing: &mut Printing<W>,
    held: Held,
    frame: &[u8],
    parts: &mut Parts,
) -> Result<Held, Refused> {
    if frame.len() != 5 {
        return Err(Refused);
    }
    let number = four(frame, 1);
    let mut out = [FILLED; MOST_ROOM];
    let reply = held.key(&mut parts.characters, &mut parts.marks, number, &mut out);
    Ok(print_call(printing, held.lent, reply, parts, &out))
}

// The pattern over and over: a copy for each time, since one byte after another through `cycle` takes longer.
fn fill(bytes: &mut [u8], pattern: &[u8])
    requires { 0 < length pattern.now }
{
    for part in bytes.chunks_mut(pattern.len()) {
        let count = part.len().min(pattern.len());
        part[..count].copy_from_slice(&pattern[..count]);
    }
}

fn repeated_call<W: Write>(
    printing: &mut Printing<W>,
    held: Held,
    frame: &[u8],
    parts: &mut Parts,
) -> Result<Held, Refused> {
    if !(6..=255).contains(&frame.len()) {
        return Err(Refused);
    }
    let count = four(frame, 1) as usize;
    if MOST_BYTES < count {
        return Err(Refused);
    }
    let mut bytes = [0u8; MOST_BYTES];
    fill(&mut bytes, &frame[5..]);
    Ok(host_call(printing, held, &bytes[..count], parts))
}

fn lengths_of(lent: Lent, frame: &[u8]) -> Result<Lent, Refused> {
    if frame.len() != 5 {
        return Err(Refused);
    }
    let characters = usize::from(two(frame, 1));
    let marks = usize::from(two(frame, 3));
    if KEPT < characters || KEPT < marks {
        return Err(Refused);
    }
    Ok(Lent {
        characters,
        marks,
        room: lent.room,
    })
}

fn room_of(lent: Lent, frame: &[u8]) -> Result<Lent, Refused> {
    if frame.len() != 5 {
        return Err(Refused);
    }
    let room = four(frame, 1) as usize;
    if MOST_ROOM < room {
        return Err(Refused);
    }
    Ok(Lent {
        characters: lent.characters,
        marks: lent.marks,
        room,
    })
}

fn set_character(parts: &mut Parts, frame: &[u8]) -> Result<(), Refused> {
    if frame.len() != 4 {
        return Err(Refused);
    }
    let place = usize::from(two(frame, 1));
    if KEPT <= place {
        return Err(Refused);
    }
    parts.characters[place] = frame[3];
    Ok(())
}

// A mark has two bytes.
fn set_mark(parts: &mut Parts, frame: &[u8]) -> Result<(), Refused> {
    if frame.len() != 5 {
        return Err(Refused);
    }
    let place = usize::from(two(frame, 1));
    if KEPT <= place {
        return Err(Refused);
    }
    page::set_mark(&mut parts.marks, place, two(frame, 3));
    Ok(())
}

// Message, kind, count and the byte beside the message are bytes; a part is a number, as the frames have it.
fn largest(part: usize) -> u16 {
    match part {
        8 | 9 | 11 | 180 => 255,
        _ => 65535,
    }
}

fn with_part(state: State, frame: &[u8]) -> Result<State, Refused> {
    if frame.len() != 5 {
        return Err(Refused);
    }
    let part = usize::from(two(frame, 1));
    let value = two(frame, 3);
    if damage::PARTS <= part || largest(part) < value {
        return Err(Refused);
    }
    Ok(damage::with_part(state, part, value))
}

// Frames 24 to 28 set what the calls after them are made with. The first byte says what to do, here and in do_frame: a
// match.
fn set(held: Held, frame: &[u8], parts: &mut Parts) -> Result<Held, Refused> {
    match frame {
        [0x24, ..] => Ok(Held {
            lent: lengths_of(held.lent, frame)?,
            ..held
        }),
        [0x25, ..] => Ok(Held {
            lent: room_of(held.lent, frame)?,
            ..held
        }),
        [0x26, ..] => {
            set_character(parts, frame)?;
            Ok(held)
        }
        [0x27, ..] => {
            set_mark(parts, frame)?;
            Ok(held)
        }
        [0x28, ..] => Ok(Held {
            state: with_part(held.state, frame)?,
            ..held
        }),
        _ => Err(Refused),
    }
}

// Frames 20 to 23 are calls; any other that is not refused is confirmed.
fn do_frame<W: Write>(
    printing: &mut Printing<W>,
    held: Held,
    frame: &[u8],
    parts: &mut Parts,
) -> Result<Held, Refused> {
    match frame {
        [0x20, ..] => start_call(printing, held, frame, parts),
        [0x21, bytes @ ..] => Ok(host_call(printing, held, bytes, parts)),
        [0x22, ..] => repeated_call(printing, held, frame, parts),
        [0x23, ..] => key_call(printing, held, frame, parts),
        _ => {
            let after = set(held, frame, parts)?;
            printing.print(b"00\n");
            Ok(after)
        }
    }
}

// A frame that is refused prints FF, and changes nothing.
fn do_line<W: Write>(
    printing: &mut Printing<W>,
    held: Held,
    line: &mut [u8; 512],
    digits: usize,
    parts: &mut Parts,
) -> Held {
    let count = frames::bytes(line, digits);
    if let Ok(after) = do_frame(printing, held, &line[..count], parts) {
        return after;
    }
    printing.print(b"FF\n");
    held
}

fn take_byte<W: Write>(
    printing: &mut Printing<W>,
    reading: Reading,
    byte: u8,
    line: &mut [u8; 512],
    parts: &mut Parts,
) -> Reading {
    let Reading { held, digits } = reading;
    if byte != NEW_LINE {
        return Reading {
            held,
            digits: frames::collect(line, digits, byte),
        };
    }
    Reading {
        held: do_line(printing, held, line, digits, parts),
        digits: 0,
    }
}

// As in transcript, but of other types: one function for both would take a closure, and be no plainer.
fn take_bytes<W: Write>(
    printing: &mut Printing<W>,
    reading: Reading,
    bytes: &[u8],
    line: &mut [u8; 512],
    parts: &mut Parts,
) -> Reading {
    let mut here = reading;
    for &byte in bytes {
        here = take_byte(printing, here, byte, line, parts);
    }
    here
}

fn read_all<R: Read, W: Write>(
    from: &mut R,
    printing: &mut Printing<W>,
    input: &mut [u8],
    line: &mut [u8; 512],
    parts: &mut Parts,
) -> io::Result<()> {
    let mut here = Reading {
        held: Held {
            state: State::zero(),
            lent: Lent {
                characters: 1920,
                marks: 1920,
                room: MOST_ROOM,
            },
        },
        digits: 0,
    };
    for _ in 0..MOST_READS {
        let count = from.read(input)?;
        if count == 0 {
            // A last line that lacks its 0A counts.
            if here.digits != 0 {
                do_line(printing, here.held, line, here.digits, parts);
            }
            return printing.done;
        }
        here = take_bytes(printing, here, &input[..count], line, parts);
        printing.done?;
    }
    Ok(())
}

fn main(rt: HostRuntime) -> io::Result<()> {
    let mut input = [0u8; 4096];
    let mut line = [0u8; 512];
    let mut parts = Parts {
        characters: [0; 8192],
        marks: [0; 8192],
    };
    let mut printing = Printing {
        to: rt.stdout(),
        done: Ok(()),
    };
    read_all(
        &mut rt.stdin(),
        &mut printing,
        &mut input,
        &mut line,
        &mut parts,
    )
}
