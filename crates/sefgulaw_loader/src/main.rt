//! The program: commands on standard input, replies on standard output.
#![tactic(auto)]

use loader::run_program;
use std::alloc::AllocError;
use std::io::ErrorKind;
use std::process::ExitCode;
use std::{env, io};

// Reads the words of the program, its own name first.
fn words(rt: &HostRuntime) -> io::Result<Vec<String>> {
    Ok(env::args(rt)?.collect(rt.alloc())?)
}

// Writes why the words cannot be read, and returns the exit status.
fn no_words(rt: &HostRuntime, error: &io::Error) -> u8 {
    if error.kind() == ErrorKind::OutOfMemory {
        let _ = rt.eprintln("stop: memory");
        return 3;
    }
    let _ = rt.eprintln(format_args!("error: {error}"));
    2
}

// A page less than 32 MiB, in bytes.
const MOST_KEPT_FREE: usize = 33_550_336;

// Lets the C library keep more freed memory. glibc asks the system again for each block of 128 KiB and more, until one
// such block was freed. Then it keeps freed memory up to twice the size of that block (its manual, `mallopt`,
// "M_MMAP_THRESHOLD"). The block is never written, so it takes no memory. If there is none, nothing is lost.
fn keep_freed_memory(rt: &HostRuntime) {
    let block: Result<Vec<u8>, AllocError> = Vec::with_capacity(rt.alloc(), MOST_KEPT_FREE);
    drop(block);
}

// The program's name and version, as the packages have it.
const VERSION: &str = "sefgulaw-loader 1.0.0";

// Returns whether the words ask for the version alone.
fn asks_version(words: &[String]) -> bool {
    words.len() == 2 && words[1].as_str() == "--version"
}

// Writes the version, and returns the exit status.
fn tell_version(rt: &HostRuntime) -> u8 {
    if rt.println(VERSION).is_err() {
        let _ = rt.eprintln("stop: write");
        return 3;
    }
    0
}

fn main(rt: HostRuntime) -> ExitCode {
    keep_freed_memory(&rt);
    let words = match words(&rt) {
        Ok(words) => words,
        Err(error) => return ExitCode::from(no_words(&rt, &error)),
    };
    if asks_version(words.as_slice()) {
        return ExitCode::from(tell_version(&rt));
    }
    let (reader, writer) = (rt.reader(), io::writer(&rt));
    let mut errors = rt.stderr();
    let end = run_program(
        &rt,
        rt.alloc(),
        words.as_slice(),
        reader,
        writer,
        &mut errors,
    );
    ExitCode::from(end.status)
}
