// A reader's bytes, line by line.
#![tactic(auto)]

ghost use Rattle.std.specs.Prelude.{IfOk, IfSome};
ghost use Rattle.input.specs.Lines.{Keeps, Unread};

use std::io::{self, Read};

// What of a chunk is still to be taken: the bytes from `at` to `got`, where what is read ends.
#[derive(Clone, Copy)]
pub struct Rest {
    pub at: usize,
    pub got: usize,
}

// A line: so many bytes of it have come, one more than its room has where it is too long. What is still to be taken of the chunk
// stands behind it, or none, if the input has ended.
#[derive(Clone, Copy)]
pub struct Next {
    pub len: usize,
    pub rest: Option<Rest>,
}

// Before the first line nothing is read.
pub fn start() -> Rest
    ensures { Unread result.at result.got }
{
    Rest { at: 0, got: 0 }
}

// More bytes of a line, behind the n that have come.
fn keep(line: &mut [u8], n: usize, more: &[u8]) -> usize
    ensures { Keeps line.old n more.now result line.new }
{
    if n > line.len() || line.len() - n < more.len() {
        return line.len() + 1;
    }
    let end = n + more.len();
    line[n..end].copy_from_slice(more);
    end
}

// The next line. Reads on where the chunk ends before it. A loop has to end, and nothing says that a line does: the turns are
// counted up to a number that no run comes to. An error is the reader's own: the state that was passed still stands, and the line
// and the chunk may hold other bytes.
pub fn next_line<R: Read>(
    from: &mut R,
    rest: Rest,
    line: &mut [u8; 131072],
    chunk: &mut [u8; 4096],
) -> io::Result<Next>
    requires { Unread rest.at rest.got }
    ensures { IfOk result (λ r. IfSome r.rest (λ u. Unread u.at u.got)) }
{
    let mut len: usize = 0;
    let mut at = rest.at;
    let mut got = rest.got;
    for _ in 0..u64::MAX {
        let part = &chunk[at..got];
        if let Some(n) = part.iter().position(|b| *b == b'\n') {
            return Ok(Next {
                len: keep(line, len, &part[..n]),
                rest: Some(Rest {
                    at: at + n + 1,
                    got,
                }),
            });
        }
        len = keep(line, len, part);
        at = 0;
        got = from.read(chunk)?;
        if got == 0 {
            break;
        }
    }
    Ok(Next { len, rest: None })
}
