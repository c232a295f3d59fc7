// Files by name; `-` is standard input or standard output.
use std::fs::OpenFile;
use std::io::{ErrorKind, Input, Read, Write};
use std::rt::Files;
use std::{fs, io};

// What is read: standard input, or a file that is open.
#[derive(Drop)]
pub enum Source<I, F> {
    Input(I),
    File(F),
}

impl<I: Read, F: Read> Read for Source<I, F> {
    fn read(&mut self, to: &mut [u8]) -> io::Result<usize> {
        match self {
            Source::Input(input) => input.read(to),
            Source::File(file) => file.read(to),
        }
    }
}

// Opens a file to be read.
pub fn open<R: Input + Files>(rt: &R, path: &str) -> io::Result<Source<R::Reader, R::File>> {
    if path == "-" {
        return Ok(Source::Input(rt.reader()));
    }
    Ok(Source::File(fs::open(rt, path)?))
}

// Reads to the end of the file, or until the buffer is full; tells how many octets there are. (No `for`: each read says how far it came.)
pub fn fill(from: &mut impl Read, to: &mut [u8]) -> io::Result<usize> {
    let mut at = 0;
    while at < to.len() {
        match from.read(&mut to[at..])? {
            0 => break,
            n => at += n,
        }
    }
    Ok(at)
}

// What a file that is written is called where that fails.
pub fn name(path: &str) -> &str {
    if path == "-" { "standard output" } else { path }
}

// Sees to it that the system has what was written to a file; one that keeps nothing, as a pipe, has no answer to that.
fn keep(file: &impl OpenFile) -> io::Result<()> {
    match file.sync_data() {
        Err(error)
            if error.kind() == ErrorKind::InvalidInput || error.kind() == ErrorKind::Unsupported =>
            { Ok(()) }
        kept => kept,
    }
}

// Makes the file anew, with these octets.
pub fn write(rt: &(impl Print + Files), path: &str, octets: &[u8]) -> io::Result<()> {
    if path == "-" {
        return io::writer(rt).write_all(octets);
    }
    let mut file = fs::create(rt, path)?;
    file.write_all(octets)?;
    keep(&file)
}
