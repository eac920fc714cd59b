//! `cardhouse WORDS`: reads standard input, writes texts to standard output and notes to standard error.
//!
//! Stands on rc_house.
#![tactic(auto)]

ghost use Rattle.std.specs.Prelude.{◌≡◌};
ghost use Rattle.std_io.specs.IoError.{error_kind};
ghost use Rattle.std_io.specs.declared.io.kind.ErrorKind.TheVariants.{OutOfMemory};
ghost use Rattle.rc_house.specs.declared.status.Status.TheVariants.{Memory, Usage};

use rc_house::{Status, refuse, run};
use rc_outside::{OpenGate, StdSink, StdSource};
use std::process::ExitCode;
use std::{env, io};

/// The words behind the program's name.
fn words_of(rt: &HostRuntime) -> io::Result<Vec<String>> {
    let mut words = Vec::new(rt.alloc());
    for word in env::args(rt)?.skip(1) {
        words.push(word)?;
    }
    Ok(words)
}

/// How the program ends where its words can't be read.
fn status_of(error: &io::Error) -> Status
    ensures memory { error_kind error.now ≡ OutOfMemory → result ≡ Memory }
    ensures others { ¬ (error_kind error.now ≡ OutOfMemory) → result ≡ Usage }
{
    match error.kind() {
        io::ErrorKind::OutOfMemory => Status::Memory,
        // A word that isn't UTF-8 is none of a command's.
        _ => Status::Usage,
    }
}

fn main(rt: HostRuntime) -> ExitCode {
    let mut source = StdSource::new(rt.stdin());
    let mut out = StdSink::new(rt.stdout());
    let mut notes = StdSink::new(rt.stderr());
    let status = match words_of(&rt) {
        Ok(words) => run(
            rt.alloc(),
            &rt,
            &words,
            &mut source,
            &mut out,
            &mut notes,
            &OpenGate,
        ),
        Err(error) => refuse(&mut notes, status_of(&error)),
    };
    ExitCode::from(status.code())
}
