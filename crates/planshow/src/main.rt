// Shows plan sheets: planshow [dot] [FILE ..], plan.sheet where no file is named.
#![tactic(auto)]

use planrecord::PlanRecord;
use plantext::{Dot, Text};
use std::io::ErrorKind;
use std::{env, fs, io};

// What a record is shown as.
#[derive(Clone, Copy, Debug, PartialEq, Eq)]
enum Form {
    Text,
    Dot,
}

impl Form {
    fn print(self, rt: &HostRuntime, record: &PlanRecord) -> io::Result<()> {
        match self {
            Form::Text => print!(rt; "{}", Text(record)),
            Form::Dot => print!(rt; "{}", Dot(record)),
        }
    }
}

// The bytes of a file; an absent file is an empty sheet.
fn sheet_bytes(rt: &HostRuntime, path: &str) -> io::Result<Vec<u8>> {
    match fs::read(rt, path) {
        Err(e) if e.kind() == ErrorKind::NotFound => Ok(Vec::new(rt.alloc())),
        read => read,
    }
}

fn show(rt: &HostRuntime, form: Form, path: &str) -> io::Result<()> {
    let bytes = sheet_bytes(rt, path)?;
    match planrecord::describe(bytes.as_slice()) {
        Ok(record) => form.print(rt, &record),
        Err(refusal) => println!(rt; "{refusal}"),
    }
}

fn run(rt: &HostRuntime) -> anyhow::Result<()> {
    let mut words = env::args(rt)?.skip(1).peekable();
    let form = if words.next_if(|word| word.as_str() == "dot").is_some() {
        Form::Dot
    } else {
        Form::Text
    };
    if words.peek().is_none() {
        show(rt, form, "plan.sheet")?;
    }
    for path in words {
        show(rt, form, path.as_str())?;
    }
    Ok(())
}

fn main(rt: HostRuntime) -> anyhow::Result<()> {
    run(&rt)
}
