// Commands on standard input, one a line, on two pools of 128 slots named 0 and 1; one line of answer each on standard output.
// An answer begins with document 01's number; what is no command is answered by `?` and changes nothing. A line is read, then
// taken apart, then run.
#![tactic(auto)]

use command::{Command, Handed, Named, NotCommand, Order};
use std::io::{self, Write};
use tree::KEY_MAX;
use walk::Walk;

// A walk over 128 slots gives at most so many keys.
const KEYS: usize = 128;

// A pool of 128 slots.
#[derive(Drop)]
struct Pool {
    labels: [u8; 32640],
    words: [u32; 1032],
}

// What the words of a line give. A line of the room's length has no more than 65,536 bytes in hex, nor numbers.
#[derive(Drop)]
struct Room {
    bytes: [u8; 65536],
    numbers: [u64; 65536],
}

// An empty pool.
fn new_pool() -> Pool {
    let mut pool = Pool {
        labels: [0; 32640],
        words: [0; 1032],
    };
    let _ = pool::make(&mut pool.labels, &mut pool.words);
    pool
}

// The largest image of 128 slots: the root's 4 bytes, and 259 for each other.
fn write<W: Write>(to: &mut W, pool: &Pool) -> io::Result<()> {
    let mut tree = [0u8; 32897];
    let mut numbers = [0u64; 128];
    let answer = writer::write(&pool.labels, &pool.words, &mut tree, &mut numbers);
    tell::written(to, answer, &tree, &numbers)
}

// Every step of a new walk to its end.
fn walk_all<W: Write>(to: &mut W, pool: &Pool, prefix: &[u8]) -> io::Result<()> {
    let mut key = [0u8; KEY_MAX];
    let mut walk = Walk::new(prefix);
    for _ in 0..KEYS + 1 {
        let step = walk.step(&pool.labels, &pool.words, &mut key);
        let answer = step.answer;
        tell::walked(to, answer, &key)?;
        if answer.is_err() {
            break;
        }
        walk = step.walk;
    }
    Ok(())
}

// One step of a walk that is handed in, with an output of so many bytes, at most 4,096.
fn step<W: Write>(to: &mut W, pool: &Pool, walk: Walk, room: usize) -> io::Result<()> {
    let mut out = [0u8; KEY_MAX];
    let out = &mut out[..room.min(KEY_MAX)];
    let step = walk.step(&pool.labels, &pool.words, out);
    tell::stepped(to, step.answer, out)
}

// The walk that is handed in.
fn handed_in(given: Handed, bytes: &[u8]) -> Walk {
    let fresh = Walk::new(command::first(bytes, given.prefix));
    match given.last {
        Some(n) => fresh.after(command::first(command::behind(bytes, given.prefix), n)),
        None => fresh,
    }
}

// An order is carried out on a pool. A split needs the other one too.
fn run<W: Write>(
    to: &mut W,
    pool: &mut Pool,
    other: &mut Pool,
    order: Order,
    room: &Room,
) -> io::Result<()> {
    let labels = &mut pool.labels;
    let words = &mut pool.words;
    let bytes = &room.bytes;
    match order {
        Order::Make => tell::done(to, pool::make(labels, words)),
        Order::Clear => tell::done(to, pool::clear(labels, words)),
        Order::Counts => tell::counted(to, pool::counts(labels, words)),
        Order::Write => write(to, pool),
        Order::Get(n) => tell::got(to, search::get(labels, words, command::first(bytes, n))),
        Order::Remove(n) => tell::got(to, remove::remove(labels, words, command::first(bytes, n))),
        Order::Longest(n) => {
            tell::prefixed(to, search::longest(labels, words, command::first(bytes, n)))
        }
        Order::Shared(n) => {
            tell::sharing(to, search::shared(labels, words, command::first(bytes, n)))
        }
        Order::Walk(n) => walk_all(to, pool, command::first(bytes, n)),
        Order::Insert(n, number) => {
            let key = command::first(bytes, n);
            tell::inserted(to, insert::insert(labels, words, key, number))
        }
        Order::Split(n) => {
            let prefix = command::first(bytes, n);
            let answer = split::split(labels, words, prefix, &mut other.labels, &mut other.words);
            tell::done(to, answer)
        }
        Order::Read(n, k) => {
            let listed = command::first(&room.numbers, k);
            let image = command::first(bytes, n);
            tell::done(to, reader::read(labels, words, image, listed))
        }
        Order::Step(given) => step(to, pool, handed_in(given, bytes), given.out),
    }
}

// What was heard is answered, on the pool that it names.
fn respond<W: Write>(
    to: &mut W,
    first: &mut Pool,
    second: &mut Pool,
    heard: Option<Result<(Command, Order), NotCommand>>,
    room: &Room,
) -> io::Result<()> {
    match heard {
        None => Ok(()),
        Some(Err(_)) => tell::no_command(to),
        Some(Ok((command, order))) => match command.pool {
            Named::First => run(to, first, second, order, room),
            Named::Second => run(to, second, first, order, room),
        },
    }
}

// Answers each line to the end of the input. A loop has to end, and nothing says that an input does: the turns are counted up to a
// number that no run comes to.
fn main(rt: HostRuntime) -> io::Result<()> {
    let mut from = rt.stdin();
    let mut to = io::writer(&rt);
    let mut first = new_pool();
    let mut second = new_pool();
    let mut line = [0u8; 131072];
    let mut chunk = [0u8; 4096];
    let mut room = Room {
        bytes: [0; 65536],
        numbers: [0; 65536],
    };
    let mut rest = input::start();
    for _ in 0..u64::MAX {
        let next = input::next_line(&mut from, rest, &mut line, &mut chunk)?;
        let heard = command::hear(&line, next.len, &mut room.bytes, &mut room.numbers);
        respond(&mut to, &mut first, &mut second, heard, &room)?;
        let Some(more) = next.rest else {
            break;
        };
        rest = more;
    }
    Ok(())
}
