// Samples of what is promised: cutting and feeding back (demand 2) and the copy (demand 3), said of what runs. Each
// function calls the entries, and its contract has the promise.
// What the contracts say is in specs/Samples.antt; what they rest on is proved in `promises`.
#![tactic(auto)]

ghost use Rattle.std.specs.Prelude.{◌≤◌, ◌≡◌, true, eqb, length, take, drop};
ghost use Rattle.page.specs.Page.{page_of};
ghost use Rattle.terminal.specs.Answers.{given, number_of};
ghost use Rattle.blocks.specs.Lay.{lay};
ghost use Rattle.copy.specs.Copy.{IsBlock};
ghost use Rattle.samples.specs.Samples.{InTwoReads, SentOn, all_answered, ThreeCalls, copying, CopyKept};
ghost use Rattle.samples.specs.declared.NotKept.TheVariants as not_kept;
ghost use Rattle.steps.specs.Steps.{terminal_of};

use output::NoRoom;
use page::Mark;
use state::State;
use terminal::{Answer, Reply};

// What asks for the full block.
const ESC_S: [u8; 2] = [0x1B, b'S'];

// What two calls handed back.
#[derive(Clone, Copy)]
pub struct Replies {
    pub first: Reply,
    pub second: Reply,
}

// A cut past the end is one at the end.
fn place_of_cut(bytes: &[u8], cut: usize) -> usize
    ensures { (result ≤ length bytes.now)
        × (take result bytes.now ≡ take cut bytes.now)
        × (drop result bytes.now ≡ drop cut bytes.now) }
{
    cut.min(bytes.len())
}

// Host bytes, cut anywhere, in two calls. (Here and below a page is two slices, as the C interface lends it.)
pub fn host_in_two(
    state: State,
    characters: &mut [u8],
    marks: &mut [Mark],
    bytes: &[u8],
    cut: usize,
    out: &mut [u8],
    out_later: &mut [u8],
) -> Replies
    ensures { InTwoReads
        (terminal_of state characters.old marks.old) bytes.now cut
        out.old out_later.old
        result (page_of characters.new marks.new) out.new out_later.new }
{
    let at = place_of_cut(bytes, cut);
    let first = terminal::host(state, characters, marks, &bytes[..at], out);
    let between = first.state;
    let second = terminal::host(between, characters, marks, &bytes[at..], out_later);
    Replies { first, second }
}

// The full block of one terminal, fed to another.
pub fn send_on(
    state: State,
    characters: &mut [u8],
    marks: &mut [Mark],
    out: &mut [u8],
    state_there: State,
    characters_there: &mut [u8],
    marks_there: &mut [Mark],
    out_there: &mut [u8],
) -> Replies
    ensures { SentOn
        (terminal_of state characters.old marks.old)
        (terminal_of state_there characters_there.old marks_there.old)
        out.old out_there.old
        (given result.first
        (page_of characters.new marks.new) out.new)
        (given result.second
        (page_of characters_there.new marks_there.new) out_there.new) }
{
    let first = terminal::host(state, characters, marks, &ESC_S, out);
    let sent = first.sent;
    let second = terminal::host(
        state_there,
        characters_there,
        marks_there,
        &out[..sent],
        out_there,
    );
    Replies { first, second }
}

// What ESC S, any key, and 266 handed back.
#[derive(Clone, Copy)]
pub struct ThreeReplies {
    pub full: Reply,
    pub typed: Reply,
    pub later: Reply,
}

// Why the host has no copy: one of the calls was refused, or what is laid doesn't fit.
#[derive(Clone, Copy, Debug, PartialEq, Eq)]
pub enum NotKept {
    NotSent,
    NoRoom,
}

impl From<NoRoom> for NotKept {
    ghost from_gives = { λ _ error. error ≡ not_kept.NoRoom };

    fn from(_: NoRoom) -> Self {
        NotKept::NoRoom
    }
}

// And what became of the host's copy: how many bytes were laid.
#[derive(Clone, Copy)]
pub struct Copied {
    pub replies: ThreeReplies,
    pub copy: Result<usize, NotKept>,
}

fn is_done(reply: Reply) -> bool
    ensures { result ≡ eqb (number_of reply.answer) 0 }
{
    matches!(reply.answer, Answer::Done)
}

fn all_done(replies: ThreeReplies) -> bool
    ensures { result ≡ all_answered replies }
{
    is_done(replies.full) && is_done(replies.typed) && is_done(replies.later)
}

// A full block, one key, and the block that 266 sends, each into an output of its own.
fn call_three(
    state: State,
    characters: &mut [u8],
    marks: &mut [Mark],
    key: usize,
    full: &mut [u8],
    typed: &mut [u8],
    later: &mut [u8],
) -> ThreeReplies
    ensures { ThreeCalls
        (terminal_of state characters.old marks.old) key
        full.old typed.old later.old
        result (page_of characters.new marks.new)
        full.new typed.new later.new }
{
    let first = terminal::host(state, characters, marks, &ESC_S, full);
    let sent = first.state;
    let second = terminal::key(sent, characters, marks, key, typed);
    let pressed = second.state;
    let third = terminal::key(pressed, characters, marks, 266, later);
    ThreeReplies {
        full: first,
        typed: second,
        later: third,
    }
}

// What 266 sent, laid over what ESC S sent, where no call was refused.
fn lay_later(
    replies: ThreeReplies,
    full: &[u8],
    later: &[u8],
    copy: &mut [u8],
) -> Result<usize, NotKept>
    requires sent { (replies.full.sent ≤ length full.now) × (replies.later.sent ≤ length later.now) }
    requires blocks { all_answered replies ≡ true →
        IsBlock (take replies.later.sent later.now) × IsBlock (take replies.full.sent full.now) }
    ensures { record { copy = result; output = copy.new }
        ≡ copying (all_answered replies)
        (lay (take replies.later.sent later.now) (take replies.full.sent full.now)) copy.old }
{
    if !all_done(replies) {
        return Err(NotKept::NotSent);
    }
    let bytes = copy::lay(
        &later[..replies.later.sent],
        &full[..replies.full.sent],
        copy,
    )?;
    Ok(bytes)
}

// A full block, one key, and the block that 266 sends, which is laid over the full one: the host's copy.
pub fn keep_copy(
    state: State,
    characters: &mut [u8],
    marks: &mut [Mark],
    key: usize,
    full: &mut [u8],
    typed: &mut [u8],
    later: &mut [u8],
    copy: &mut [u8],
) -> Copied
    ensures { CopyKept
        (terminal_of state characters.old marks.old) key
        full.old typed.old later.old copy.old
        result (page_of characters.new marks.new)
        full.new typed.new later.new copy.new }
{
    let replies = call_three(state, characters, marks, key, full, typed, later);
    let copy = lay_later(replies, full, later, copy);
    Copied { replies, copy }
}
