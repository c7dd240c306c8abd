// Text for a writer: numbers in decimal, bytes in lower-case hex, lists joined by commas, `-` for none. An error is the writer's
// own, and what was written before it stays written.
#![tactic(auto)]

ghost use Rattle.std.specs.Prelude.{◌≡◌, ◌<◌};
ghost use Rattle.print.specs.Hex.{hex_digit_ascii, Spelt};

use std::io::{self, Write};

// So many bytes are spelt at once.
const AT_ONCE: usize = 2048;

pub fn text<W: Write>(out: &mut W, s: &[u8]) -> io::Result<()> {
    out.write_all(s)
}

pub fn number<W: Write>(out: &mut W, n: u64) -> io::Result<()> {
    write!(out, "{n}")
}

// A number behind a space.
pub fn value<W: Write>(out: &mut W, n: u64) -> io::Result<()> {
    write!(out, " {n}")
}

pub fn line_end<W: Write>(out: &mut W) -> io::Result<()> {
    text(out, b"\n")
}

// The character of a hex digit.
fn glyph(d: u8) -> u8
    requires { d < 16 }
    ensures { result ≡ hex_digit_ascii d }
{
    if d < 10 { b'0' + d } else { b'a' + (d - 10) }
}

// Two digits for each byte, at the front of the room, as far as that goes; gives how many bytes were spelt.
pub fn spell(bytes: &[u8], out: &mut [u8]) -> usize
    ensures { Spelt bytes.now out.old out.new result }
{
    let most = bytes.len().min(out.len() / 2);
    for n in 0..most {
        let b = bytes[n];
        out[2 * n] = glyph(b / 16);
        out[2 * n + 1] = glyph(b % 16);
    }
    most
}

// Writes the hex of a run of at most 2,048 bytes.
fn short_hex<W: Write>(out: &mut W, bytes: &[u8]) -> io::Result<()> {
    let mut room = [0u8; 2 * AT_ONCE];
    let n = spell(bytes, &mut room);
    text(out, &room[..2 * n])
}

// The hex of a run of bytes, `-` for none.
pub fn hex<W: Write>(out: &mut W, bytes: &[u8]) -> io::Result<()> {
    if bytes.is_empty() {
        return text(out, b"-");
    }
    for part in bytes.chunks(AT_ONCE) {
        short_hex(out, part)?;
    }
    Ok(())
}

// Numbers joined by commas, `-` for none.
pub fn list<W: Write>(out: &mut W, numbers: &[u64]) -> io::Result<()> {
    let Some((first, rest)) = numbers.split_first() else {
        return text(out, b"-");
    };
    number(out, *first)?;
    for n in rest {
        write!(out, ",{n}")?;
    }
    Ok(())
}
