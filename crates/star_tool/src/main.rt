//! A tool for streams of reports.
#![tactic(auto)]

mod audit_text;
mod book_walk;
mod check_text;
mod coins;
mod epochs_text;
mod expect_text;
mod feed;
mod file_source;
pub mod laws;
mod opener;
mod output;
mod run;
mod self_test_text;
mod status;
mod stream_source;
mod verbs;

pub use check_text::check_text;
pub use client_table::{TableError, read_table};
pub use command_words::{Command, Thresholds, Words, WordsError, words_of};
pub use epochs_text::epochs_text;
pub use expect_text::expect_text;
pub use file_source::FileSource;
pub use opener::{HostFiles, Opener};
use recovery_pool::NoGate;
pub use run::run;
pub use self_test_text::self_test_text;
use star_io::{NoMemory, Sink, StdSink, StdSource};
pub use status::{Status, status_line, status_number};
use std::alloc::Global;
use std::env;
use std::io::{self, BufReader, Read, Write};
use std::process::ExitCode;
use std::rt::Files;
use std::thread::Threads;
pub use verbs::audit::MAX_CERTS_BYTES;
pub use verbs::make::MAX_TABLE_BYTES;

/// Where the coins come from where no seed is given.
const COINS: &str = "/dev/urandom";

/// How many bytes one read of standard input may bring.
const INPUT_BUFFER: usize = 65536;

fn main(rt: HostRuntime) -> ExitCode {
    let status = match words_in(&rt) {
        Ok(words) => run_over(&rt, rt.alloc(), &words, rt.stdin(), rt.stdout()),
        Err(status) => status,
    };
    match status_line(rt.alloc(), &status) {
        Ok(line) => {
            // Where standard error can't be written, the exit status alone says how the run ended.
            let _ = StdSink::new(rt.stderr()).put(&line);
        }
        Err(NoMemory) => {}
    }
    ExitCode::from(status_number(&status))
}

// Runs over a reader and a writer of std. The input is read through a buffer.
fn run_over<R: Threads + Sync + Files, I: Read + Drop, O: Write + Drop>(
    rt: &R,
    alloc: Global,
    words: &Words,
    stdin: I,
    stdout: O,
) -> Status {
    let buffered = match BufReader::with_capacity(alloc, INPUT_BUFFER, stdin) {
        Ok(buffered) => buffered,
        Err(_) => return Status::NoMemory,
    };
    let mut input = StdSource::new(buffered);
    let mut coins = FileSource::new(HostFiles::new(rt), COINS);
    let mut out = StdSink::new(stdout);
    run(rt, alloc, words, &mut input, &mut coins, &NoGate, &mut out)
}

// The words after the program's name. One that isn't UTF-8 is a faulty command line.
fn words_in(rt: &HostRuntime) -> Result<Words, Status> {
    let mut words = Words::new(rt.alloc());
    let args = match env::args(rt) {
        Ok(args) => args,
        Err(error) if error.kind() == io::ErrorKind::OutOfMemory => return Err(Status::NoMemory),
        Err(_) => return Err(Status::Usage),
    };
    for word in args.skip(1) {
        match words.push(word.as_str()) {
            Ok(()) => {}
            Err(NoMemory) => return Err(Status::NoMemory),
        }
    }
    Ok(words)
}

#[cfg(test)]
mod tests;
#[cfg(test)]
mod tests_books;
#[cfg(test)]
mod tests_faults;
#[cfg(test)]
mod tests_levels;
#[cfg(test)]
mod trial_streams;
