// Reads a year's holds from standard input, part by part, and writes their report (docs/RULES.md, section 21).
#![tactic(auto)]

ghost use Rattle.std.specs.Prelude.{◌≤◌, IfOk, length};

use hold_year::{printing, year};
use refusals::Refusal;
use std::io;
use std::io::{Read, Write};

// Fills the buffer, or as much of it as there is left to read, and says how much that is.
fn read_full(input: &mut impl Read, buf: &mut [u8]) -> io::Result<usize>
    ensures { IfOk result (λ n. n ≤ length buf.new) }
{
    let mut n = 0;
    while n < buf.len() {
        let more = input.read(&mut buf[n..])?;
        if more == 0 {
            break;
        }
        n += more;
    }
    Ok(n)
}

// Writes the line of a refusal.
fn refuse(output: &mut impl Write, why: Refusal) -> io::Result<()> {
    let mut text = [0u8; 5386];
    let length = printing::print_refusal(u64::from(why), &mut text);
    output.write_all(&text[..length])
}

// 214 parts have more than 3,500,034 bytes: a text that is as long is refused on the way (`long_refused` of hold_year).
fn main(rt: HostRuntime) -> io::Result<()> {
    let mut input = rt.reader();
    let mut output = io::writer(&rt);
    let mut figures = [0u64; 192];
    let mut reading = year::begin();
    let mut part = [0u8; 16384];
    for _ in 0..214u64 {
        let n = read_full(&mut input, &mut part)?;
        match year::feed(reading, &part[..n], &mut figures) {
            Ok(next) => reading = next,
            Err(why) => return refuse(&mut output, why),
        }
        if n < 16384 {
            break;
        }
    }
    let mut text = [0u8; 5386];
    let length = printing::print_finish(reading, &figures, &mut text);
    output.write_all(&text[..length])
}
