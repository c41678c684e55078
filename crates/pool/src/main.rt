// The program `pool`: answers a session script line by line.
#![tactic(auto)]

use anyhow::anyhow;
use checker::verdict::Workspace;
use commands::files::{decode_digits, read_file_command};
use commands::lines::{Line, Lines};
use commands::types::{FileCommand, Problem};
use script::answers::{Answer, LineError};
use script::desk::Desk;
use std::alloc::AllocError;
use std::io::Read;
use std::str::from_utf8;
use std::{env, fs};

// What a script has chosen so far, and the memory for its checks.
#[derive(Drop)]
struct Session {
    desk: Desk,
    workspace: Workspace,
}

// Why a check has no answer: something is wrong with its line, or memory ran out.
enum Failure {
    Problem(Problem),
    Memory(AllocError),
}

impl From<Problem> for Failure {
    fn from(problem: Problem) -> Failure {
        Failure::Problem(problem)
    }
}

impl From<AllocError> for Failure {
    fn from(error: AllocError) -> Failure {
        Failure::Memory(error)
    }
}

// The script in the file that the first argument names, or else on standard input.
fn script(rt: &HostRuntime) -> anyhow::Result<Vec<u8>> {
    let mut arguments = env::args(rt)?.skip(1);
    match (arguments.next(), arguments.next()) {
        (None, _) => {
            let mut bytes = Vec::new(rt.alloc());
            rt.stdin().read_to_end(&mut bytes)?;
            Ok(bytes)
        }
        (Some(path), None) => Ok(fs::read(rt, path)?),
        _ => Err(anyhow!("usage: pool [SCRIPT]")),
    }
}

// The bytes of the file that a command names.
fn program_file(rt: &HostRuntime, command: FileCommand<'_>) -> Result<Vec<u8>, Failure> {
    let file = match command {
        FileCommand::Digits(text) => decode_digits(rt.alloc(), text)?.ok_or(Problem::NoDigits)?,
        FileCommand::Path(path) => from_utf8(path)
            .ok()
            .and_then(|path| fs::read(rt, path).ok())
            .ok_or(Problem::Unreadable)?,
    };
    Ok(file)
}

impl Session {
    // The answer to the check that a line asks for, or nothing where it asks for none.
    fn check(&mut self, rt: &HostRuntime, line: &[u8]) -> Result<Option<Answer>, Failure> {
        let Some(command) = read_file_command(line)? else {
            return Ok(None);
        };
        let file = program_file(rt, command)?;
        Ok(Some(self.desk.check(&mut self.workspace, file.as_slice())))
    }

    // Prints what a line is answered, where it holds a command, or what is wrong with it. In line in the loop over the lines: as
    // a function of its own it would clear all its locals at every line, an empty one too.
    #[inline(always)]
    fn reply(&mut self, rt: &HostRuntime, line: Line<'_>) -> anyhow::Result<()> {
        let answer = match self.check(rt, line.bytes) {
            Ok(None) => self.desk.respond(line),
            Ok(answer) => Ok(answer),
            Err(Failure::Problem(problem)) => Err(LineError {
                line: line.number,
                problem,
            }),
            Err(Failure::Memory(error)) => return Err(error.into()),
        };
        match answer {
            Ok(None) => {}
            Ok(Some(answer)) => println!(rt; "{answer}")?,
            Err(error) => println!(rt; "{error}")?,
        }
        Ok(())
    }
}

fn main(rt: HostRuntime) -> anyhow::Result<()> {
    let script = script(&rt)?;
    let mut session = Session {
        desk: Desk::new(),
        workspace: Workspace::reserve(rt.alloc())?,
    };
    for line in Lines::of(script.as_slice()) {
        session.reply(&rt, line)?;
    }
    Ok(())
}
