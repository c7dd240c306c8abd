// A dozen images, each cut at every place and changed in every byte to every value, read into a pool of six slots. The
// listed verdicts come from `bench/verdicts`, a second reader that shares no code with ours. A line of a byte has each
// verdict behind the first value that gets it.
#![tactic(auto)]

use std::io::{self, Write};
use tree::{Answer, Refusal, RuleNo};

// The number of a verdict, and the offset of those that have one.
fn verdict<W: Write>(to: &mut W, answer: Answer<()>) -> io::Result<()> {
    print::value(to, u64::from(tree::number(&answer)))?;
    if let Err(refusal) = answer {
        if let Some(at) = refusal.value() {
            print::text(to, b" at")?;
            print::value(to, at as u64)?;
        }
    }
    Ok(())
}

// Reads an image into six slots of their own.
fn read(image: &[u8], numbers: &[u64]) -> Answer<()> {
    let mut labels = [0u8; 1530];
    let mut words = [0u32; 56];
    reader::read(&mut labels, &mut words, image, numbers)
}

// Reads the first n bytes, of an image that has so many.
fn cut<W: Write>(to: &mut W, image: &[u8], numbers: &[u64], n: usize) -> io::Result<()> {
    print::text(to, b"cut")?;
    print::value(to, n as u64)?;
    print::text(to, b":")?;
    if let Some(front) = image.get(..n) {
        verdict(to, read(front, numbers))?;
    }
    print::text(to, b"\n")
}

fn cuts<W: Write>(to: &mut W, image: &[u8], numbers: &[u64]) -> io::Result<()> {
    for n in 0..=image.len() {
        cut(to, image, numbers, n)?;
    }
    Ok(())
}

// The verdict on one value of a byte.
fn tell<W: Write>(to: &mut W, byte: u8, answer: Answer<()>) -> io::Result<()> {
    print::value(to, u64::from(byte))?;
    print::text(to, b" ->")?;
    verdict(to, answer)?;
    print::text(to, b",")
}

// One byte changed, where there is one.
fn set_byte(image: &mut [u8], at: usize, byte: u8) {
    if let Some(place) = image.get_mut(at) {
        *place = byte;
    }
}

// Every value of the byte at a place, told if its verdict is another than the last. No image here gets NotPool, so the first is.
fn values<W: Write>(to: &mut W, image: &mut [u8], numbers: &[u64], at: usize) -> io::Result<()> {
    let was = image.get(at).copied().unwrap_or(0);
    let mut last = Err(Refusal::NotPool);
    for byte in 0..=u8::MAX {
        set_byte(image, at, byte);
        let answer = read(image, numbers);
        if answer != last {
            tell(to, byte, answer)?;
        }
        last = answer;
    }
    set_byte(image, at, was);
    Ok(())
}

fn place<W: Write>(to: &mut W, image: &mut [u8], numbers: &[u64], at: usize) -> io::Result<()> {
    print::text(to, b"byte")?;
    print::value(to, at as u64)?;
    print::text(to, b":")?;
    values(to, image, numbers, at)?;
    print::text(to, b"\n")
}

fn changes<W: Write>(to: &mut W, image: &mut [u8], numbers: &[u64]) -> io::Result<()> {
    for at in 0..image.len() {
        place(to, image, numbers, at)?;
    }
    Ok(())
}

// The image of the tree that a pool holds, cut and changed.
fn damage<W: Write>(to: &mut W, labels: &[u8], words: &[u32]) -> io::Result<()> {
    let mut image = [0u8; 64];
    let mut numbers = [0u64; 8];
    let Ok(written) = writer::write(labels, words, &mut image, &mut numbers) else {
        return Ok(());
    };
    print::text(to, b"image")?;
    print::value(to, written.bytes as u64)?;
    print::value(to, written.numbers as u64)?;
    print::text(to, b"\n")?;
    let Some(numbers) = numbers.get(..written.numbers) else {
        return Ok(());
    };
    if let Some(image) = image.get_mut(..written.bytes) {
        cuts(to, image, numbers)?;
        changes(to, image, numbers)?;
    }
    Ok(())
}

// The image of the tree of four keys, with the numbers from 1 on; one that is given twice is stored once.
fn tree_of<W: Write>(to: &mut W, keys: [&[u8]; 4]) -> io::Result<()> {
    let mut labels = [0u8; 4080];
    let mut words = [0u32; 136];
    let _ = pool::make(&mut labels, &mut words);
    for (i, key) in keys.iter().enumerate() {
        let number = RuleNo(i as u64 + 1);
        let _ = insert::insert(&mut labels, &mut words, key, number);
    }
    damage(to, &labels, &words)
}

fn empty_tree<W: Write>(to: &mut W) -> io::Result<()> {
    let mut labels = [0u8; 255];
    let mut words = [0u32; 16];
    let _ = pool::make(&mut labels, &mut words);
    damage(to, &labels, &words)
}

fn main(rt: HostRuntime) -> io::Result<()> {
    let mut writer = io::writer(&rt);
    let to = &mut writer;
    empty_tree(to)?;
    tree_of(to, [b"", b"", b"", b""])?;
    tree_of(to, [b"a", b"a", b"a", b"a"])?;
    tree_of(to, [b"", b"a", b"a", b"a"])?;
    tree_of(to, [b"ab", b"ac", b"ac", b"ac"])?;
    tree_of(to, [b"a", b"abc", b"abc", b"abc"])?;
    tree_of(to, [b"a", b"b", b"c", b"c"])?;
    tree_of(to, [b"a", b"ab", b"abc", b"abc"])?;
    tree_of(to, [&[0], &[255], &[255], &[255]])?;
    tree_of(to, [b"ab", b"abc", b"b", b"b"])?;
    tree_of(
        to,
        [b"/shop/cart", b"/shop/sale", b"/shop/sale", b"/shop/sale"],
    )?;
    tree_of(to, [b"aa", b"ab", b"ba", b"bb"])?;
    Ok(())
}
