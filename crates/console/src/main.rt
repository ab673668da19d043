// The machine's own commands, as numbers: each line of the input is one, and what the machine does with it is printed. For trying the machine itself;
// the keyboard program is the one for people.
#![tactic(auto)]

use anyhow::anyhow;
use notation::said::Kind;
use notation::shown::row_text;
use notation::source::Source;
use reader::WORDS;
use reader::run::{first_row, run};
use std::alloc::Global;
use std::{env, io};

const HELP: &str =
    "console: reads commands as numbers, a line each, and prints what the machine answers

usage: console [FILE]       without a file, standard input is read

a line is the word load, read or next and then numbers:
  load  the bytes that spell a grammar: how many rules, and for each rule its name,
        how many symbols are on its right side, and these: a sign is 0 to 23, a name 32 and its number
  read  the signs of a text
  next  the signs behind which something may come
  say   any bytes at all
a line that begins with # is a remark";

// Numbers that one command may show here, with the lengths of its rows.
const ROOM: usize = 1048576;

// The bytes of a command: a word for its kind, then numbers.
fn command(heap: Global, line: &str) -> anyhow::Result<Vec<u8>> {
    let mut bytes = Vec::new(heap);
    let mut words = line.split_whitespace();
    match words.next() {
        Some("load") => bytes.push(u8::from(Kind::Load))?,
        Some("read") => bytes.push(u8::from(Kind::Read))?,
        Some("next") => bytes.push(u8::from(Kind::Next))?,
        Some("say") | None => {}
        Some(_) => return Err(anyhow!("a line begins with load, read, next or say")),
    }
    for word in words {
        bytes.push(word.parse::<u8>()?)?;
    }
    Ok(bytes)
}

// The rows that were shown, each with its length before it.
fn print_rows(rt: &HostRuntime, shown: &[u64]) -> anyhow::Result<()> {
    let mut rest = shown;
    'row: while let Some((numbers, later)) = first_row(rest) {
        rt.println(row_text(rt.alloc(), numbers)?)?;
        rest = later;
    }
    Ok(())
}

// One command, to its end: rows that are shown, then done or refused.
fn answer(
    rt: &HostRuntime,
    memory: &mut [u64],
    shown: &mut [u64],
    bytes: &[u8],
) -> anyhow::Result<()> {
    let Some(ended) = run(memory, bytes, shown) else {
        rt.println("more rows than there is room for here")?;
        return Ok(());
    };
    print_rows(rt, &shown[0..ended.used.min(shown.len())])?;
    match ended.refused {
        None => rt.println("done")?,
        Some(refusal) => println!(rt; "refused, {}: {refusal}", u64::from(refusal))?,
    }
    Ok(())
}

fn converse(rt: &HostRuntime, text: &str) -> anyhow::Result<()> {
    let mut memory = vec![in rt.alloc(); 0u64; WORDS]?;
    let mut shown = vec![in rt.alloc(); 0u64; ROOM]?;
    for line in text.lines() {
        if line.trim().is_empty() {
            continue;
        }
        if line.starts_with("#") {
            rt.println(line)?;
            continue;
        }
        println!(rt; "> {line}")?;
        match command(rt.alloc(), line) {
            Ok(bytes) => answer(rt, &mut memory, &mut shown, &bytes)?,
            Err(e) => println!(rt; "not understood: {e}")?,
        }
    }
    Ok(())
}

fn main(rt: HostRuntime) -> anyhow::Result<()> {
    let word = env::args(&rt)?.nth(1);
    let text = match Source::named(&rt, "console", word.as_deref())? {
        Source::Help => {
            rt.println(HELP)?;
            return Ok(());
        }
        Source::Input => io::read_to_string(rt.alloc(), rt.stdin())?,
        Source::File(text) => text,
    };
    converse(&rt, &text)
}
