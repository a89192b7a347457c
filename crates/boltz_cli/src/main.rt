//! The program: hands the process's words, its files and its output to the top call.
#![tactic(auto)]

ghost use Rattle.std.specs.Prelude.{◌≡◌, ◌<◌};

use boltz::run::run;
use bz_model::steps::Steps;
use bz_outside::file_shelf::FileShelf;
use bz_outside::std_sink::StdSink;
use bz_outside::word::Word;
use std::alloc::{AllocError, Global};
use std::marker::Brand;
use std::process::ExitCode;
use std::sync::ledger::{Blank, Ledger};
use std::{env, io};

/// The status of a process that finds no memory for its words.
const NO_MEMORY: u8 = 10;

/// The words of the process, without the program's name.
fn words(alloc: Global, args: env::Args) -> Result<Vec<Word>, AllocError> {
    let mut words = Vec::new(alloc);
    for arg in args.skip(1) {
        words.push(Word::from_bytes(alloc, arg.as_bytes())?)?;
    }
    Ok(words)
}

/// One empty word, which no command accepts: it stands for words that can't be had as text.
fn no_command(alloc: Global) -> Result<Vec<Word>, AllocError> {
    let mut words = Vec::new(alloc);
    words.push(Word::from_bytes(alloc, &[])?)?;
    Ok(words)
}

fn main(rt: HostRuntime) -> ExitCode {
    let alloc = rt.alloc();
    let words = match env::args(&rt) {
        Ok(args) => words(alloc, args),
        Err(error) if error.kind() == io::ErrorKind::OutOfMemory => Err(AllocError),
        Err(_) => no_command(alloc),
    };
    match words {
        Ok(words) => ExitCode::from(answer(&rt, &words)),
        Err(AllocError) => ExitCode::from(NO_MEMORY),
    }
}

/// Calls the top call over the real files and the real output, with steps on a ledger of its own.
fn answer(rt: &HostRuntime, words: &[Word]) -> u8 {
    counted::<Brand>(rt, words, Blank::new(1))
}

/// Calls the top call with a counter of steps that stands at 0.
fn counted<L: Ledger>(rt: &HostRuntime, words: &[Word], blank: Blank) -> u8
    requires name { blank.name ≡ L.name }
    requires parts { blank.parts ≡ L.parts }
    requires some { 0 < L.parts }
{
    let mut steps = Steps::<L>::open(blank);
    let mut shelf = FileShelf::new(rt);
    let mut out = StdSink::new(rt.stdout());
    run(rt.alloc(), words, &mut shelf, &mut out, &mut steps).number()
}
