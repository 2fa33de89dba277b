// What the programs share: an input read into a lent slice, and a printer that keeps the error of the first write that failed.
#![tactic(auto)]

ghost use Rattle.std.specs.Prelude.{◌≡◌, ◌+◌, ◌<◌, ◌≤◌, ◌^◌, length, take, IsOk, OnOk, OnErr};
ghost use Rattle.std.specs.Io.KnownBytes.{Consumes, Appends};

use std::io::{Read, Write};
use std::rt::Files;
use std::{fs, io};

// Reads until the bytes are full, the input ends or a read fails; gives how many it put at the front of them, and loses none that it read.
pub fn read_full<R: Read>(input: &mut R, bytes: &mut [u8]) -> usize
    ensures within { result ≤ length bytes.new }
    ensures front { result ≡ length (take result bytes.new) }
    ensures bytes { Consumes (R.remaining input.old) (R.remaining input.new) (take result bytes.new) }
{
    let mut done = 0;
    while done < bytes.len() {
        match input.read(&mut bytes[done..]) {
            Ok(0) | Err(_) => break,
            Ok(n) => done += n,
        }
    }
    done
}

// Reads a file and gives how many bytes it put at the front of what is lent. An absent file counts as empty.
pub fn read_file(rt: &impl Files, name: &str, bytes: &mut [u8]) -> usize
    ensures within { result ≤ length bytes.new }
    ensures front { result ≡ length (take result bytes.new) }
{
    match fs::open(rt, name) {
        Ok(mut file) => read_full(&mut file, bytes),
        Err(_) => 0,
    }
}

// An output, how many bytes were printed to it, and how writing them has gone.
#[derive(Drop)]
pub struct Printer<W: Write> {
    pub output: W,
    pub printed: usize,
    pub gone: io::Result<()>,
}

impl<W: Write> Printer<W> {
    // Nothing is printed yet.
    pub fn new(output: W) -> Self
        ensures output { result.output ≡ output }
        ensures printed { result.printed ≡ 0 }
        ensures gone { IsOk result.gone }
    {
        Printer {
            output,
            printed: 0,
            gone: Ok(()),
        }
    }

    // Prints the bytes that come next. After a write that failed none is tried, and its error is kept.
    pub fn print(&mut self, bytes: &[u8])
        requires { self.old.printed + length bytes.now < 2 ^ 64 }
        ensures printed { self.new.printed ≡ self.old.printed + length bytes.now }
        ensures bytes { OnOk self.new.gone (Appends (W.contents self.old.output) (W.contents self.new.output) bytes.now) }
        ensures kept { OnErr self.old.gone (self.new.gone ≡ self.old.gone) }
        ensures untouched { OnErr self.old.gone (self.new.output ≡ self.old.output) }
    {
        if self.gone.is_ok() {
            self.gone = self.output.write_all(bytes);
        }
        self.printed += bytes.len();
    }
}
