// A reader at a keyboard: each line is a rule, a text or a command, and is answered in words.
#![tactic(auto)]

use notation::source::Source;
use session::Session;
use std::env;
use std::io::{BufRead, BufReader};

mod help;
mod session;

// The line that ends the session.
const QUIT: &str = ":quit";

// Answers a line, which has this number.
fn converse(
    rt: &HostRuntime,
    session: &mut Session,
    number: u64,
    line: &str,
) -> anyhow::Result<()> {
    match session.answer(rt.alloc(), line) {
        Ok(text) if text.is_empty() => {}
        Ok(text) => rt.println(text)?,
        Err(fault) => println!(rt; "line {number}: {fault}")?,
    }
    Ok(())
}

// The lines of a file, which lie in its text: none is copied, so that none can fail to be read.
fn converse_file(rt: &HostRuntime, session: &mut Session, text: &str) -> anyhow::Result<()> {
    for (number, line) in (1u64..).zip(text.lines()) {
        let line = line.trim();
        if line == QUIT {
            break;
        }
        converse(rt, session, number, line)?;
    }
    Ok(())
}

// The lines of the input, as they come.
fn converse_input(rt: &HostRuntime, session: &mut Session) -> anyhow::Result<()> {
    let input = BufReader::new(rt.alloc(), rt.stdin())?;
    for (number, line) in (1u64..).zip(input.lines(rt.alloc())) {
        let line = line?;
        let line = line.trim();
        if line == QUIT {
            break;
        }
        converse(rt, session, number, line)?;
    }
    Ok(())
}

fn main(rt: HostRuntime) -> anyhow::Result<()> {
    let word = env::args(&rt)?.nth(1);
    if word.as_deref() == Some("--help") {
        rt.println(help::USAGE)?;
        rt.println(help::LINES)?;
        return Ok(());
    }
    // The machine's memory is taken before a file is read: where there is not room for both, it is the file that cannot be read.
    let mut session = Session::new(rt.alloc())?;
    match Source::named(&rt, "keyboard", word.as_deref())? {
        Source::File(text) => converse_file(&rt, &mut session, &text),
        // help is given above
        Source::Input | Source::Help => converse_input(&rt, &mut session),
    }
}
