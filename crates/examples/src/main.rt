// The examples of document 01 that are not starred: a host call of 65,536 bytes is accepted, and one of 65,537 is
// given 6. A line for each call: its bytes; then its number, the bytes taken, the bytes sent, the cells stored, the
// cursor's row and column.
#![tactic(auto)]

use page::Mark;
use std::io;
use terminal::Reply;

fn tell(rt: &impl Print, bytes: usize, reply: Reply) -> io::Result<()> {
    let number = terminal::number_of(reply.answer);
    let cursor = reply.state.cursor;
    println!(rt;
        "{bytes} {number} {} {} {} {} {}",
        reply.taken, reply.sent, reply.stored, cursor.row, cursor.column
    )
}

fn main(rt: HostRuntime) -> io::Result<()> {
    let mut characters = [0u8; 1920];
    let mut marks: [Mark; 1920] = [0; 1920];
    let mut out = [0u8; 1];
    let bytes = [b'A'; 65537];
    let started = terminal::start(24, 80, &mut characters, &mut marks);
    tell(&rt, 0, started)?;
    let long = terminal::host(
        started.state,
        &mut characters,
        &mut marks,
        &bytes[..65536],
        &mut out,
    );
    tell(&rt, 65536, long)?;
    let longer = terminal::host(long.state, &mut characters, &mut marks, &bytes, &mut out);
    tell(&rt, 65537, longer)
}
