// What `desk` writes: a refused text's number and line, or what stands after the run.
ghost use Rattle.std.specs.Prelude.{◌≡◌, ◌+◌, ◌<◌, ◌≤◌};
ghost use Rattle.machine.specs.Stops.{number_of};
ghost use Rattle.decktext.specs.Read.{says_reading, read_text};
ghost use Rattle.listing.specs.Listing.{blank, field, refusal, register_line, register_lines, listed, listing_of};
ghost use Rattle.listing.specs.Text.{Holds, Appended};

use crate::text::Text;
use decktext::Refusal;
use machine::{Ran, Registers};
use orders::general_at;

// No listing is longer than 307 bytes, whatever the numbers in it.
pub type Listing = Text<320>;

// Reads the text, runs its orders at seat 0 from a fresh state to a stop, and lists what stands there then.
pub fn answer(text: &[u8]) -> Listing
    ensures { Holds result (listing_of text.now) }
{
    let mut cells = [0; 16384];
    let mut memory = [0; 4096];
    let mut protect = [0; 512];
    let mut journal = [0; 4096];
    match decktext::read(text, &mut cells, &mut memory, &mut protect) {
        Ok(count) => {
            let n = count as usize * 4;
            let fresh = machine::fresh();
            list_run(machine::run(
                fresh,
                0,
                &cells[..n],
                &mut memory,
                &protect,
                &mut journal,
                u32::MAX,
            ))
        }
        Err(refusal) => list_refusal(u8::from(refusal), refusal.line()),
    }
}

// What reading the text into the same blank buffers answers, for a program that tells its user why a
// text is refused.
pub fn reading(text: &[u8]) -> Result<u32, Refusal>
    ensures { says_reading result ≡ (read_text text.now blank).said }
{
    let mut cells = [0; 16384];
    let mut memory = [0; 4096];
    let mut protect = [0; 512];
    decktext::read(text, &mut cells, &mut memory, &mut protect)
}

// A number in decimal, and the byte after it.
fn push_field(out: &mut Listing, n: u64, after: u8)
    requires { out.old.length + 21 ≤ 320 }
    ensures appended { Appended out.old out.new (field n after) }
    ensures length_bound { out.new.length ≤ out.old.length + 21 }
{
    out.push_decimal(n);
    out.push(after);
}

fn list_refusal(number: u8, line: u32) -> Listing
    ensures { Holds result (refusal number line) }
{
    let mut out = Listing::new();
    out.push_bytes(b"stop line\n");
    push_field(&mut out, number as u64, b' ');
    push_field(&mut out, line as u64, b'\n');
    out
}

fn list_run(r: Ran) -> Listing
    ensures { Holds result (listed r.count (number_of r.stop) r.state.seat0) }
{
    let g = r.state.seat0;
    let mut out = Listing::new();
    out.push_bytes(b"steps stop next cc mask\n");
    push_field(&mut out, r.count as u64, b' ');
    push_field(&mut out, machine::number(r.stop) as u64, b' ');
    push_field(&mut out, g.status.pointer as u64, b' ');
    push_field(&mut out, g.status.condition as u64, b' ');
    push_field(&mut out, g.status.mask as u64, b'\n');
    out.push_bytes(b"reg float general\n");
    push_registers(&mut out, g);
    out
}

// The float registers beside the general ones of the selected set.
fn push_registers(out: &mut Listing, g: Registers)
    requires { out.old.length ≤ 160 }
    ensures { Appended out.old out.new (register_lines 8 g.float g.general g.status.selector) }
{
    let selector = g.status.selector as u32;
    for (i, float) in g.float.iter().enumerate() {
        let general = general_at(&g.general, selector, i as u32);
        push_register(out, i as u8, *float, general);
    }
}

// A register's number and both contents.
fn push_register(out: &mut Listing, r: u8, float: u32, general: u32)
    requires { (out.old.length ≤ 300) × (r < 8) }
    ensures { Appended out.old out.new (register_line r float general) }
{
    out.push(b'0' + r);
    out.push(b' ');
    out.push_word(float);
    out.push(b' ');
    out.push_word(general);
    out.push(b'\n');
}
