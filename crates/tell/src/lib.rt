// What each call answers, as a line of text: document 01's number first, and behind it what is told besides; at the
// end, of a search, `/` and how many nodes it looked at.
#![tactic(auto)]

use std::io::{self, Write};
use tree::{
    Answer, Counted, Got, Inserted, Looked, Prefixed, Refusal, RuleNo, Sharing, Stepped, Written,
};

fn number<W: Write>(to: &mut W, n: u32) -> io::Result<()> {
    print::number(to, u64::from(n))
}

// A number and nothing more.
fn alone<W: Write>(to: &mut W, n: u32) -> io::Result<()> {
    number(to, n)?;
    print::line_end(to)
}

// A length or a count behind what stands in the line.
fn length<W: Write>(to: &mut W, n: usize) -> io::Result<()> {
    print::value(to, n as u64)
}

// A stored number behind what stands in the line.
fn rule<W: Write>(to: &mut W, v: RuleNo) -> io::Result<()> {
    print::value(to, v.0)
}

// How many nodes a search looked at ends the line, behind a stroke.
fn looked<W: Write>(to: &mut W, n: Looked) -> io::Result<()> {
    print::text(to, b" /")?;
    print::number(to, n.0 as u64)
}

// What is no command
pub fn no_command<W: Write>(to: &mut W) -> io::Result<()> {
    print::text(to, b"?\n")
}

// A refusal: its number, and what is told besides.
fn refused<W: Write>(to: &mut W, refusal: Refusal) -> io::Result<()> {
    number(to, refusal.number())?;
    match refusal {
        Refusal::NotFound(n) => looked(to, n)?,
        Refusal::ImageShort(needed) => {
            length(to, needed.bytes)?;
            length(to, needed.numbers)?;
        }
        _ => {
            if let Some(n) = refusal.value() {
                length(to, n)?;
            }
        }
    }
    print::line_end(to)
}

// An answer in a line: 0 and what is given, told by `values`, or the refusal.
fn answered<W: Write, T: Drop, F: FnOnce(&mut W, T) -> io::Result<()>>(
    to: &mut W,
    answer: Answer<T>,
    values: F,
) -> io::Result<()>
where
    F: Drop,
    requires { F.IsAlwaysCallable values }
{
    match answer {
        Ok(given) => {
            number(to, 0)?;
            values(to, given)?;
            print::line_end(to)
        }
        Err(refusal) => refused(to, refusal),
    }
}

// What a call answers that says nothing more where it is done. As of all that is printed, the replay shows it.
pub fn done<W: Write>(to: &mut W, answer: Answer<()>) -> io::Result<()> {
    answered(to, answer, |_, _| Ok(()))
}

pub fn counted<W: Write>(to: &mut W, answer: Answer<Counted>) -> io::Result<()> {
    answered(to, answer, |to, counted| {
        length(to, counted.keys)?;
        length(to, counted.nodes)
    })
}

pub fn got<W: Write>(to: &mut W, answer: Answer<Got>) -> io::Result<()> {
    answered(to, answer, |to, got| {
        rule(to, got.number)?;
        looked(to, got.looked)
    })
}

pub fn inserted<W: Write>(to: &mut W, answer: Answer<Inserted>) -> io::Result<()> {
    answered(to, answer, |to, inserted| {
        if let Some(old) = inserted.old {
            rule(to, old)?;
        }
        looked(to, inserted.looked)
    })
}

pub fn prefixed<W: Write>(to: &mut W, answer: Answer<Prefixed>) -> io::Result<()> {
    answered(to, answer, |to, prefixed| {
        length(to, prefixed.length)?;
        rule(to, prefixed.number)?;
        looked(to, prefixed.looked)
    })
}

pub fn sharing<W: Write>(to: &mut W, answer: Answer<Sharing>) -> io::Result<()> {
    answered(to, answer, |to, sharing| {
        length(to, sharing.length)?;
        looked(to, sharing.looked)
    })
}

// The bytes at the front of an output, behind a space.
fn hex_front<W: Write>(to: &mut W, out: &[u8], n: usize) -> io::Result<()> {
    if let Some(bytes) = out.get(..n) {
        print::text(to, b" ")?;
        print::hex(to, bytes)?;
    }
    Ok(())
}

// The image stands at the front of the two outputs.
pub fn written<W: Write>(
    to: &mut W,
    answer: Answer<Written>,
    tree: &[u8],
    numbers: &[u64],
) -> io::Result<()> {
    answered(to, answer, |to, written| {
        hex_front(to, tree, written.bytes)?;
        if let Some(list) = numbers.get(..written.numbers) {
            print::text(to, b" ")?;
            print::list(to, list)?;
        }
        Ok(())
    })
}

// One step of a walk; the key stands at the front of the output.
pub fn stepped<W: Write>(to: &mut W, answer: Answer<Stepped>, out: &[u8]) -> io::Result<()> {
    answered(to, answer, |to, step| {
        hex_front(to, out, step.length)?;
        rule(to, step.number)
    })
}

// One of the steps of a whole walk: the key and its number, `KEY=N`; or the number of the refusal, which ends the line.
pub fn walked<W: Write>(to: &mut W, answer: Answer<Stepped>, out: &[u8]) -> io::Result<()> {
    match answer {
        Ok(step) => {
            if let Some(key) = out.get(..step.length) {
                print::hex(to, key)?;
            }
            print::text(to, b"=")?;
            print::number(to, step.number.0)?;
            print::text(to, b" ")
        }
        Err(refusal) => alone(to, refusal.number()),
    }
}
