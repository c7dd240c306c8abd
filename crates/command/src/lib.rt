// A command line taken apart: its verb, its pool, and what its words stand for.
#![tactic(auto)]

ghost use Rattle.std.specs.Prelude.{◌≡◌, take, drop};
ghost use Rattle.command.specs.Front.{VerbOf, NamedOf, FrontOf, Commands, CommentOf, OrderOf, AskedOf, HeardOf};

use tree::{KEY_MAX, RuleNo};

// What a command asks for.
#[derive(Clone, Copy)]
pub enum Verb {
    Make,
    Clear,
    Counts,
    Write,
    Get,
    Remove,
    Longest,
    Shared,
    Walk,
    Insert,
    Split,
    Read,
    Step,
}

// A pool's name.
#[derive(Clone, Copy, PartialEq, Eq)]
pub enum Named {
    First,
    Second,
}

// The front of a line: what its first two words name, each by itself, and where the second one ends.
#[derive(Clone, Copy)]
pub struct Front {
    pub verb: Option<Verb>,
    pub pool: Option<Named>,
    pub end: usize,
}

// The front of a command: its verb, the pool that it names, and where that name ends; behind a space there its further words
// begin.
#[derive(Clone, Copy)]
pub struct Command {
    pub verb: Verb,
    pub pool: Named,
    pub end: usize,
}

// A walk that is handed in: its prefix, the last key given, if one was, and the output's length. The prefix is the first bytes of
// the room, and the last key the bytes behind them.
#[derive(Clone, Copy)]
pub struct Handed {
    pub prefix: usize,
    pub last: Option<usize>,
    pub out: usize,
}

// A command with what its words stand for. A key, a prefix or an image is so many bytes at the front of the room; an insert has the
// number to store besides, and a read how many numbers its image has.
#[derive(Clone, Copy)]
pub enum Order {
    Make,
    Clear,
    Counts,
    Write,
    Get(usize),
    Remove(usize),
    Longest(usize),
    Shared(usize),
    Walk(usize),
    Insert(usize, RuleNo),
    Split(usize),
    Read(usize, usize),
    Step(Handed),
}

// Why a line is no command: it is longer than its room, it is one word alone, its front names no verb or no pool, or its words are
// none that its verb takes. What its front names is told all the same.
#[derive(Clone, Copy)]
pub enum NotCommand {
    TooLong,
    Alone,
    Front(Front),
    Words(Command),
}

// A name for each verb.
fn verb_named(s: &[u8]) -> Option<Verb>
    ensures { VerbOf result s.now }
{
    match s {
        b"make" => Some(Verb::Make),
        b"clear" => Some(Verb::Clear),
        b"counts" => Some(Verb::Counts),
        b"write" => Some(Verb::Write),
        b"get" => Some(Verb::Get),
        b"remove" => Some(Verb::Remove),
        b"longest" => Some(Verb::Longest),
        b"shared" => Some(Verb::Shared),
        b"walk" => Some(Verb::Walk),
        b"insert" => Some(Verb::Insert),
        b"split" => Some(Verb::Split),
        b"read" => Some(Verb::Read),
        b"step" => Some(Verb::Step),
        _ => None,
    }
}

// The same of the pools.
fn pool_named(s: &[u8]) -> Option<Named>
    ensures { NamedOf result s.now }
{
    match s {
        b"0" => Some(Named::First),
        b"1" => Some(Named::Second),
        _ => None,
    }
}

// The front of a line; one of one word has none.
fn front_in(s: &[u8]) -> Option<Front>
    ensures { FrontOf result s.now }
{
    let n = line::word_end(s);
    if n == s.len() {
        return None;
    }
    let rest = &s[n + 1..];
    let m = line::word_end(rest);
    Some(Front {
        verb: verb_named(&s[..n]),
        pool: pool_named(&rest[..m]),
        end: n + 1 + m,
    })
}

// A front that names a verb and a pool is a command's.
fn command_of(front: Front) -> Option<Command>
    ensures { Commands front result }
{
    Some(Command {
        verb: front.verb?,
        pool: front.pool?,
        end: front.end,
    })
}

// The first n of a run, or all of it.
pub fn first<T>(run: &[T], n: usize) -> &[T]
    ensures { result.now ≡ take n run.now }
{
    &run[..n.min(run.len())]
}

// What stands behind the first n.
pub fn behind<T>(run: &[T], n: usize) -> &[T]
    ensures { result.now ≡ drop n run.now }
{
    &run[n.min(run.len())..]
}

// No word at all.
fn no_words(verb: Verb) -> Option<Order>
    ensures { OrderOf verb result }
{
    match verb {
        Verb::Make => Some(Order::Make),
        Verb::Clear => Some(Order::Clear),
        Verb::Counts => Some(Order::Counts),
        Verb::Write => Some(Order::Write),
        _ => None,
    }
}

// One word, which was read as a key.
fn one_word(verb: Verb, key: usize) -> Option<Order>
    ensures { OrderOf verb result }
{
    match verb {
        Verb::Get => Some(Order::Get(key)),
        Verb::Remove => Some(Order::Remove(key)),
        Verb::Longest => Some(Order::Longest(key)),
        Verb::Shared => Some(Order::Shared(key)),
        Verb::Walk => Some(Order::Walk(key)),
        _ => None,
    }
}

// A split names the other pool.
fn with_pool(pool: Named, key: usize, word: &[u8]) -> Option<Order>
    ensures { OrderOf Verb.Split result }
{
    if pool_named(word)? == pool {
        return None;
    }
    Some(Order::Split(key))
}

// The last key of a walk, spelt by a word, `.` if none was given; and the output's length, at most 4,096.
fn with_step(prefix: usize, rest: &[u8], room: &mut [u8]) -> Option<Order>
    ensures { OrderOf Verb.Step result }
{
    let n = line::word_end(rest);
    if n == rest.len() {
        return None;
    }
    let out = line::number(&rest[n + 1..])? as usize;
    if out > KEY_MAX {
        return None;
    }
    let last = match &rest[..n] {
        b"." => None,
        word => Some(line::key(word, room)?),
    };
    Some(Order::Step(Handed { prefix, last, out }))
}

// A word that was read as a key, and more behind it.
fn more_words(
    command: Command,
    key: usize,
    rest: &[u8],
    room: &mut [u8],
    numbers: &mut [u64],
) -> Option<Order>
    ensures { OrderOf command.verb result }
{
    match command.verb {
        Verb::Insert => Some(Order::Insert(key, RuleNo(line::number(rest)?))),
        Verb::Read => Some(Order::Read(key, line::numbers(rest, numbers)?)),
        Verb::Split => with_pool(command.pool, key, rest),
        Verb::Step => with_step(key, rest, room),
        _ => None,
    }
}

// The order that a command's words make. The first word behind the pool's name, if there is one, is hex.
fn order_of(command: Command, line: &[u8], bytes: &mut [u8], numbers: &mut [u64]) -> Option<Order>
    ensures { OrderOf command.verb result }
{
    let verb = command.verb;
    let end = command.end;
    if end >= line.len() {
        return no_words(verb);
    }
    let rest = &line[end + 1..];
    let n = line::word_end(rest);
    let key = line::key(&rest[..n], bytes)?;
    if n == rest.len() {
        return one_word(verb, key);
    }
    if key > bytes.len() {
        return None;
    }
    more_words(command, key, &rest[n + 1..], &mut bytes[key..], numbers)
}

// A comment is told by its first byte.
fn is_comment(line: &[u8]) -> bool
    ensures { CommentOf result line.now }
{
    !line.is_empty() && line[0] == b'#'
}

// What a line of n bytes that is no comment asks for.
fn asked(
    line: &[u8],
    n: usize,
    bytes: &mut [u8],
    numbers: &mut [u64],
) -> Result<(Command, Order), NotCommand>
    ensures { AskedOf result line.now n }
{
    if n > line.len() {
        return Err(NotCommand::TooLong);
    }
    let whole = &line[..n];
    let front = front_in(whole).ok_or(NotCommand::Alone)?;
    let command = command_of(front).ok_or(NotCommand::Front(front))?;
    let order = order_of(command, whole, bytes, numbers).ok_or(NotCommand::Words(command))?;
    Ok((command, order))
}

// What a line of n bytes asks for; the room holds as many of them as fit. An empty line and a comment ask for nothing. A comment
// is passed over, however long it is.
pub fn hear(
    line: &[u8],
    n: usize,
    bytes: &mut [u8],
    numbers: &mut [u64],
) -> Option<Result<(Command, Order), NotCommand>>
    ensures { HeardOf result line.now n }
{
    if n == 0 || is_comment(line) {
        return None;
    }
    Some(asked(line, n, bytes, numbers))
}
