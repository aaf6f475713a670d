//! The program: runs on the words of its command line, standard input, standard output and standard error.
#![tactic(auto)]

ghost use Rattle.std.specs.Prelude.{◌≡◌, IfOk, map, string_bytes};
ghost use Rattle.std.specs.Vec.Iter.{into_iter_items};

use bdb_tool::status::{MEMORY, USAGE};
use bdb_tool::{
    BaseSource, Sink, StdSink, StdSource, Words, onto_file, put_all, run_counted, run_onto,
    tell_usage,
};
use std::alloc::{AllocError, Global};
use std::env::{self, Args};
use std::fs::{self, File, Metadata};
use std::io::{self, ErrorKind};
use std::marker::Brand;
use std::process::ExitCode;
use std::sync::ledger::Blank;

fn main(rt: HostRuntime) -> ExitCode {
    let mut err = StdSink::new(rt.stderr());
    let mut args = match env::args(&rt) {
        Ok(args) => args,
        Err(error) => return refuse(&mut err, error.kind()),
    };
    let _name = args.next();
    let Ok(words) = words_of(rt.alloc(), args) else {
        return refuse(&mut err, ErrorKind::OutOfMemory);
    };
    let mut source = StdSource::expecting(rt.stdin(), input_len(&rt));
    let mut out = StdSink::new(rt.stdout());
    let Some(file) = onto_file(&words) else {
        return ExitCode::from(run_counted::<Brand, _, _, _>(
            rt.alloc(),
            &words,
            &mut source,
            &mut out,
            &mut err,
            Blank::new(1),
        ));
    };
    let mut base = match base_at(&rt, file) {
        Ok(base) => base,
        Err(error) => return refuse(&mut err, error.kind()),
    };
    ExitCode::from(run_onto::<Brand, _, _, _, _>(
        rt.alloc(),
        &words,
        &mut source,
        &mut base,
        &mut out,
        &mut err,
        Blank::new(1),
    ))
}

// How long a file is, 0 where that isn't told.
fn len_of(metadata: io::Result<Metadata>) -> usize {
    match metadata {
        Ok(metadata) => metadata.len() as usize,
        Err(_) => 0,
    }
}

// How long standard input is, 0 where it's no file.
fn input_len(rt: &HostRuntime) -> usize {
    len_of(fs::metadata(rt, "/dev/stdin"))
}

// The file of a word, opened for reading alone. What can't be opened is shut, but where memory runs out.
fn base_at(rt: &HostRuntime, file: &[u8]) -> io::Result<BaseSource<File>> {
    let Ok(path) = str::from_utf8(file) else {
        return Ok(BaseSource::Shut { faults: 0 });
    };
    match fs::open(rt, path) {
        Ok(file) => {
            let expected = len_of(file.metadata());
            Ok(BaseSource::Reader(StdSource::expecting(file, expected)))
        }
        Err(error) if error.kind() == ErrorKind::OutOfMemory => Err(error),
        Err(_) => Ok(BaseSource::Shut { faults: 0 }),
    }
}

// Ends where the words can't be collected: memory ran out, or a word isn't UTF-8.
fn refuse<E: Sink>(err: &mut E, cause: ErrorKind) -> ExitCode {
    if cause == ErrorKind::OutOfMemory {
        let _ = put_all(err, b"out of memory\n");
        return ExitCode::from(MEMORY);
    }
    let _ = tell_usage(err);
    ExitCode::from(USAGE)
}

// The words, in order.
fn words_of(alloc: Global, args: Args) -> Result<Words, AllocError>
    ensures { IfOk result (λ words. words ≡ map string_bytes (into_iter_items args)) }
{
    let mut words = Words::new(alloc);
    for arg in args {
        words.push(arg.as_str())?;
    }
    Ok(words)
}
