// Document 02, M-100: the three functions of the crate panel, exported for a program in C. Each hands on what it is
// given and promises what the library's promises. include/panel.h declares them; docs/PANEL.md is for who calls them.
// Three of one shape, with slices side by side: they are the C interface.
#![tactic(auto)]

ghost use Rattle.std.specs.Prelude.{[]};
ghost use Rattle.panel.specs.Panel.{lent_of};
ghost use Rattle.panel.specs.Panel.{PanelStartAllows, PanelHostAllows, PanelKeyAllows};

// A fresh page of so many rows and columns.
#[unsafe(no_mangle)]
pub extern "C" fn panel_start(
    rows: usize,
    columns: usize,
    packed: &mut [u8],
    characters: &mut [u8],
    marks: &mut [u8],
    res: &mut [u8],
) -> u8
    ensures { PanelStartAllows rows columns
        (lent_of packed.old characters.old marks.old [] res.old)
        result (lent_of packed.new characters.new marks.new [] res.new) }
{
    panel::panel_start(rows, columns, packed, characters, marks, res)
}

// Host bytes, at most 65,536. What is sent is written from the output's start on.
#[unsafe(no_mangle)]
pub extern "C" fn panel_host(
    packed: &mut [u8],
    characters: &mut [u8],
    marks: &mut [u8],
    bytes: &[u8],
    out: &mut [u8],
    res: &mut [u8],
) -> u8
    ensures { PanelHostAllows
        (lent_of packed.old characters.old marks.old out.old
        res.old)
        bytes.now result
        (lent_of packed.new characters.new marks.new out.new
        res.new) }
{
    panel::panel_host(packed, characters, marks, bytes, out, res)
}

// A key, by its number. What is sent is written from the output's start on.
#[unsafe(no_mangle)]
pub extern "C" fn panel_key(
    packed: &mut [u8],
    characters: &mut [u8],
    marks: &mut [u8],
    key: usize,
    out: &mut [u8],
    res: &mut [u8],
) -> u8
    ensures { PanelKeyAllows
        (lent_of packed.old characters.old marks.old out.old
        res.old)
        key result
        (lent_of packed.new characters.new marks.new out.new
        res.new) }
{
    panel::panel_key(packed, characters, marks, key, out, res)
}
