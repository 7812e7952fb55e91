// Reading a deck text: the walk over lines and values stages what they give; a good text is written.
ghost use Rattle.std.specs.Prelude.{◌≡◌, ◌≤◌, length};
ghost use Rattle.protection.specs.Bits.{bitwise};
ghost use Rattle.decktext.specs.Read.{buffers, outcome, says_reading, number_said, line_said, read_text};
ghost use Rattle.decktext.specs.Walk.{wanted_of, end_said, Walked};

use crate::line::{Progress, Sizes, Wanted, advance, judge, start, value, values_wanted};
use crate::reader::LineReader;
use crate::refusal::Refusal;
use crate::span::find;
use crate::staged::Staged;
use crate::tables::Tables;

// The number of a refusal, or 0.
// Kept: this and `line_of` by their promise; `From` and `Refusal::line` say the same of a refusal.
pub fn number_of(r: Result<u32, Refusal>) -> u8
    ensures { result ≡ number_said (says_reading r) }
{
    match r {
        Ok(_) => 0,
        Err(refusal) => u8::from(refusal),
    }
}

// The line of a refusal, or 0.
pub fn line_of(r: Result<u32, Refusal>) -> u32
    ensures { result ≡ line_said (says_reading r) }
{
    match r {
        Ok(_) => 0,
        Err(refusal) => refusal.line(),
    }
}

// The order count, or why the text is refused, which then leaves every buffer as it was.
pub fn read(
    text: &[u8],
    cells: &mut [u16],
    memory: &mut [u16],
    protect: &mut [u8],
) -> Result<u32, Refusal>
    ensures { outcome (buffers cells.new memory.new (bitwise protect.new)) (says_reading result)
        ≡ read_text text.now (buffers cells.old memory.old (bitwise protect.old)) }
{
    if 32768 < text.len() {
        return Err(Refusal::NoRoom(0));
    }
    let tables = Tables::new();
    let mut staged = Staged {
        values: [0; 16384],
        halfwords: 0,
    };
    let n = walk(text, cells, memory, protect, &tables, &mut staged)?;
    staged.put_orders(n as usize * 4, cells);
    staged.put_halfwords(n, memory, protect);
    Ok(n)
}

// The order count, or the first fault with its line, at which the walk is left. What the lines give is
// staged. An order line has at least 8 bytes and gives four values, a memory line at least 9 and gives
// three, so there is room.
fn walk(
    text: &[u8],
    cells: &[u16],
    memory: &[u16],
    protect: &[u8],
    tables: &Tables,
    staged: &mut Staged,
) -> Result<u32, Refusal>
    requires { (length text.now ≤ 32768) × (staged.old.halfwords ≡ 0) }
    ensures { Walked text.now (buffers cells.now memory.now (bitwise protect.now)) staged.new result }
{
    let sizes = Sizes {
        cells: cells.len(),
        memory: memory.len(),
        protect: protect.len(),
    };
    let mut reader = LineReader::new(text);
    let mut p = start();
    let mut line: u32 = 1;
    'lines: loop {
        if reader.is_done() {
            break 'lines at_end(line, p);
        }
        let Some(bytes) = reader.read() else {
            break 'lines Err(Refusal::Malformed(line));
        };
        let end = bytes.len();
        let mut values = [0; 4];
        let mut from = 0;
        for i in 0..values_wanted(p.wanted, end) {
            let to = find(bytes, from, end, b' ');
            let Some(v) = value(p.wanted, i, to == end, &bytes[from..to], tables) else {
                break 'lines Err(Refusal::Malformed(line));
            };
            values[i] = v;
            from = to + 1;
        }
        let g = match judge(p, bytes, values, sizes) {
            Ok(g) => g,
            Err(fault) => break 'lines Err(fault.at(line)),
        };
        staged.stage(g, p.count);
        p = advance(p, g);
        line += 1;
    }
}

fn at_end(line: u32, p: Progress) -> Result<u32, Refusal>
    ensures { says_reading result ≡ end_said (wanted_of p.wanted) p.count line }
{
    match p.wanted {
        Wanted::Heading | Wanted::Storage => Err(Refusal::Malformed(line)),
        Wanted::Order | Wanted::Halfword => Ok(p.count),
    }
}
