// Runs the worked cases and the outside vectors. They stand in a table, the file `stdin` beside this folder, whose first lines say how it is read.
// Of each case this program says whether all of its lines came out right, and it shows each line that didn't.
#![tactic(auto)]

mod asked;
mod bits;
mod case;
mod numbers;
mod replay;
mod samples;
mod state;
mod table;

ghost use Rattle.std.specs.Prelude.{◌≤◌, length, IfOk};

use case::Case;
use std::io;
use std::io::Read;

// How a case comes out: right so far, or wrong.
#[derive(Clone, Copy)]
enum Verdict {
    Right,
    Wrong,
}

// Ends the line of a case; nothing where none was begun.
fn say(rt: &impl Print, verdict: Option<Verdict>) -> io::Result<()> {
    match verdict {
        Some(Verdict::Right) => rt.write_all(b": right\n"),
        Some(Verdict::Wrong) => rt.write_all(b": WRONG\n"),
        None => Ok(()),
    }
}

// Shows a line that didn't come out right.
fn show(rt: &impl Print, line: &[u8]) -> io::Result<()> {
    rt.write_all(b"\n")?;
    rt.write_all(line)
}

// Takes one line, and returns how its case comes out so far. A line that is empty, or starts with a sharp, says nothing.
fn next(
    rt: &impl Print,
    line: &[u8],
    verdict: Option<Verdict>,
    case: &mut Case,
) -> io::Result<Option<Verdict>> {
    match line {
        [] | [b'#', ..] => Ok(verdict),
        [b'c', b'a', b's', b'e', b' ', name @ ..] => {
            say(rt, verdict)?;
            rt.write_all(name)?;
            Ok(Some(Verdict::Right))
        }
        _ if replay::is_right(line, case) => Ok(verdict),
        _ => {
            show(rt, line)?;
            Ok(Some(Verdict::Wrong))
        }
    }
}

// Takes the lines of a table, and returns how the last case comes out.
fn run(rt: &impl Print, text: &[u8], case: &mut Case) -> io::Result<Option<Verdict>> {
    let mut verdict = None;
    for line in text.split(|c| *c == b'\n') {
        verdict = next(rt, line, verdict, case)?;
    }
    Ok(verdict)
}

// Fills a buffer from its start, as far as the input goes, and says how far that is.
fn read_full(input: &mut impl Read, text: &mut [u8]) -> io::Result<usize>
    ensures { IfOk result (λ n. n ≤ length text.new) }
{
    let mut len: usize = 0;
    // No `for`: how much a read gives is known behind it alone.
    while len < text.len() {
        let n = input.read(&mut text[len..])?;
        if n == 0 {
            return Ok(len);
        }
        len += n;
    }
    Ok(len)
}

fn main(rt: HostRuntime) -> io::Result<()> {
    let mut text = [0; 196608];
    let len = read_full(&mut rt.reader(), &mut text)?;
    let verdict = run(&rt, &text[0..len], &mut Case::new())?;
    say(&rt, verdict)
}
