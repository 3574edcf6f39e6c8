ghost use Rattle.std.specs.Prelude.{◌≡◌, OnOk, IsErr};
ghost use Rattle.std.specs.Io.KnownBytes.{Appends};

use std::io;
use std::io::Write;

// Where a program's text goes, and whether all of it was written. After a write that failed nothing more is written,
// and the program goes on: it ends with the error.
#[derive(Drop)]
pub struct Printing<W> {
    pub to: W,
    pub done: io::Result<()>,
}

impl<W: Write> Printing<W> {
    // The text, where all before it was written.
    pub fn print(&mut self, text: &[u8])
        ensures written { OnOk self.new.done
            (Appends (W.contents self.old.to) (W.contents self.new.to) text.now) }
        ensures stopped { IsErr self.old.done → self.new ≡ self.old }
    {
        if self.done.is_ok() {
            self.done = self.to.write_all(text);
        }
    }
}
