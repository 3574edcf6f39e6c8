// A block laid over a copy of an earlier one: what a host does that keeps the copy of a form.
// The bytes that are laid are `lay` of crates/blocks/specs/Lay.antt.
#![tactic(auto)]

ghost use Rattle.std.specs.Prelude.{◌≡◌, ◌<◌, ◌≤◌, true, leb, length};
ghost use Rattle.std.specs.Iterator.{at_most};
ghost use Rattle.words.specs.Output.{Wrote};
ghost use Rattle.blocks.specs.Blocks.{Entry, entry_bytes};
ghost use Rattle.blocks.specs.Decode.{decode, valid_entry};
ghost use Rattle.blocks.specs.Lay.{laid_on, lay};
ghost use Rattle.copy.specs.Copy.{IsBlock, entry_end, same_head, GivesEntry, laying};

use output::NoRoom;

// An entry of a block starts with it.
const ESC: u8 = 0x1B;

// The entries of a block from one on, each as its bytes.
#[derive(Clone, Copy, Drop)]
struct Entries<'a> {
    bytes: &'a [u8],
    ghost block: { IsBlock bytes.now },
}

impl<'a> Iterator for Entries<'a> {
    type Item = &'a [u8];

    ghost next_gives = { λ entries given rest. GivesEntry entries.bytes.now given rest.bytes.now };

    ghost remaining = { λ entries. at_most (length entries.bytes.now) };

    fn next(&mut self) -> Option<&'a [u8]> {
        if self.bytes[0] != ESC {
            return None;
        }
        let (entry, rest) = self.bytes.split_at(entry_end(self.bytes));
        self.bytes = rest;
        Some(entry)
    }
}

// Where the entry ends that bytes start with.
fn entry_end(bytes: &[u8]) -> usize
    requires { 0 < length bytes.now }
    ensures { result ≡ entry_end bytes.now }
{
    for end in 1..bytes.len() {
        if bytes[end] < 0x20 {
            return end;
        }
    }
    bytes.len()
}

// Whether two entries are of one row and column: their bytes are the same up to the f. (The loop returns on either
// answer: `all` and `any` would go on past one of the two.)
fn same_head(one: &[u8], other: &[u8]) -> bool
    ensures { result ≡ same_head one.now other.now }
{
    for (a, b) in one.iter().zip(other) {
        if a != b {
            return false;
        }
        if *a == b'f' {
            return true;
        }
    }
    false
}

// What is laid for an entry of the copy: the block's first of its row and column, else itself.
fn laid_part<'a>(block: Entries<'a>, own: &'a [u8]) -> &'a [u8]
    ensures { (entry : Entry) → valid_entry entry ≡ true → own.now ≡ entry_bytes entry →
        result.now ≡ entry_bytes (laid_on (decode block.entry.bytes.now) entry) }
{
    for sent in block {
        if same_head(sent, own) {
            return sent;
        }
    }
    own
}

// Whether what is laid fits: counted down, since a sum might not fit a number, and no further than to what doesn't fit.
fn has_room(block: Entries, copy: Entries, room: usize) -> bool
    ensures { result ≡ leb (length (lay block.entry.bytes.now copy.entry.bytes.now)) room }
{
    let mut left = room;
    for own in copy {
        let Some(rest) = left.checked_sub(laid_part(block, own).len()) else {
            return false;
        };
        left = rest;
    }
    0 < left
}

// All that is laid, written.
fn put_laid(out: &mut [u8], block: Entries, copy: Entries) -> usize
    requires { length (lay block.bytes.now copy.bytes.now) ≤ length out.old }
    ensures { Wrote 0 (lay block.entry.bytes.now copy.entry.bytes.now) out.old result out.new }
{
    let mut next = 0;
    for own in copy {
        next = output::put_all(out, next, laid_part(block, own));
    }
    output::put_byte(out, next, 0x03)
}

// Lays a block over a copy, into the output from its start on, and says how many bytes that are; where there is too
// little room nothing happens.
pub fn lay(block: &[u8], copy: &[u8], out: &mut [u8]) -> Result<usize, NoRoom>
    requires { IsBlock block.now × IsBlock copy.now }
    ensures { record { answer = result; output = out.new }
        ≡ laying (lay block.now copy.now) out.old }
{
    let block = Entries { bytes: block };
    let copy = Entries { bytes: copy };
    if !has_room(block, copy, out.len()) {
        return Err(NoRoom);
    }
    Ok(put_laid(out, block, copy))
}
