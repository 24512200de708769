//! The program `plchost`: it decodes captures by descriptions in the first form of mspec, the language of Apache PLC4X's
//! protocol descriptions, checks and prints descriptions, and runs scripts of the request table. It compiles nothing yet.
#![tactic(auto)]

#[cfg(test)]
mod check_tests;
#[cfg(test)]
mod form_tests;
#[cfg(test)]
mod print_tests;
#[cfg(test)]
mod range_tests;
#[cfg(test)]
mod script_tests;
#[cfg(test)]
mod tests;

ghost use Rattle.std.specs.Prelude.{◌≡◌, ◌≢◌, ◌⊎◌, [], codes, Ok, IfOk, IfErr};
ghost use Rattle.std.specs.Process.{exit_status};
ghost use Rattle.link_io.specs.Counts.{Rose};
ghost use Rattle.link_io.specs.Streams.{after_taking};
ghost use Rattle.host_engine.specs.Runs.{IsRun, PutsFront, shown};

use host_engine::{Cut, conclude, tool_main};
use link_io::{FileShelf, Shelf, Sink, Source, StdSink, StdSource, StringList};
use std::alloc::{AllocError, Global};
use std::io::ErrorKind;
use std::process::ExitCode;
use std::rt::Env;
use std::{env, io};

/// The words behind the program's name. A word that isn't text is an error.
fn read_words(rt: &(impl Env + AllocGlobal)) -> io::Result<StringList> {
    let mut words = StringList::new(rt.alloc());
    for word in env::args(rt)?.skip(1) {
        words.push(word)?;
    }
    Ok(words)
}

/// The words that were read, or none, which no command has, where one of them isn't text. An `Err` is want of memory.
fn known_words(alloc: Global, read: io::Result<StringList>) -> Result<StringList, AllocError>
    ensures kept { IfOk read (λ words. result ≡ Ok words) }
    ensures none { IfErr read (λ _. IfOk result (λ words. words ≡ [])) }
{
    match read {
        Ok(words) => Ok(words),
        Err(error) if matches!(error.kind(), ErrorKind::OutOfMemory) => Err(AllocError),
        Err(_) => Ok(StringList::new(alloc)),
    }
}

/// The words, and the files that they may name. An `Err` is want of memory.
fn words_and_files(rt: HostRuntime) -> Result<(StringList, FileShelf<HostRuntime>), AllocError> {
    let words = known_words(rt.alloc(), read_words(&rt))?;
    let files = FileShelf::new(rt, rt.alloc())?;
    Ok((words, files))
}

/// The run by these words. The process is to end with its status.
fn run_process<F: Shelf, S: Source, K: Sink>(
    alloc: Global,
    words: &StringList,
    files: &mut F,
    input: &mut S,
    out: &mut K,
) -> ExitCode
    ensures { IsRun words.now F.counts_with
        (shown (F.seen files.old) (S.seen input.old) (K.seen out.old))
        (shown (F.seen files.new) (S.seen input.new) (K.seen out.new)) (exit_status result) }
{
    ExitCode::from(tool_main(alloc, words, files, input, out))
}

/// The end of a process that has no memory for its words and its files.
fn end_without_memory<K: Sink>(out: &mut K) -> ExitCode
    ensures status { (exit_status result ≡ 8) ⊎ (exit_status result ≡ 5) }
    ensures said { exit_status result ≢ 5
        → ((K.seen out.new).held ≡ after_taking (codes "no memory\n") (K.seen out.old).held)
        × ((K.seen out.new).faults ≡ (K.seen out.old).faults) }
    ensures cut { exit_status result ≡ 5
        → PutsFront (K.seen out.old).held (K.seen out.new).held (codes "no memory\n")
        × Rose (K.seen out.old).faults (K.seen out.new).faults }
{
    ExitCode::from(conclude(out, &[], Err(Cut::NoMemory)))
}

fn main(rt: HostRuntime) -> ExitCode {
    let mut out = StdSink::new(io::writer(&rt));
    match words_and_files(rt) {
        Ok((words, mut files)) => {
            let mut input = StdSource::new(rt.reader());
            run_process(rt.alloc(), &words, &mut files, &mut input, &mut out)
        }
        Err(AllocError) => end_without_memory(&mut out),
    }
}
