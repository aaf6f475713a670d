use std::alloc::{AllocError, Global};
use test_runs::Bytes;
use test_runs::running::Ran;

/// Whether the input, and the base where there is one, were read.
#[derive(Clone, Copy)]
pub(crate) struct Reads {
    input: bool,
    base: bool,
}

impl Reads {
    pub(crate) fn of_input(reads: u64) -> Reads {
        Reads {
            input: reads > 0,
            base: true,
        }
    }

    pub(crate) fn of_both(input: u64, base: u64) -> Reads {
        Reads {
            input: input > 0,
            base: base > 0,
        }
    }
}

/// The lines on a run: its output, or how long it is; its error lines; its status, where it isn't 0; and what wasn't read.
pub(crate) fn told_of(
    alloc: Global,
    ran: &Ran,
    is_kept: bool,
    reads: Reads,
) -> Result<Bytes, AllocError> {
    let mut told = Bytes::new(alloc);
    if is_kept {
        push_length(alloc, &mut told, ran.out.bytes().len())?;
    } else {
        push_lines(&mut told, b"| ", ran.out.bytes())?;
    }
    push_lines(&mut told, b"! ", ran.err.bytes())?;
    push_status(alloc, &mut told, ran.status)?;
    push_reads(&mut told, reads)?;
    Ok(told)
}

fn push_length(alloc: Global, told: &mut Bytes, length: usize) -> Result<(), AllocError> {
    told.push_all(format!(in alloc; "{length} bytes\n")?.as_bytes())
}

fn push_status(alloc: Global, told: &mut Bytes, status: u8) -> Result<(), AllocError> {
    if status == 0 {
        return Ok(());
    }
    told.push_all(format!(in alloc; "status {status}\n")?.as_bytes())
}

fn push_reads(told: &mut Bytes, reads: Reads) -> Result<(), AllocError> {
    if !reads.input {
        told.push_all(b"unread\n")?;
    }
    if !reads.base {
        told.push_all(b"base unread\n")?;
    }
    Ok(())
}

// The lines of a text, each behind a mark. A backslash stands where the last one has no end.
fn push_lines(told: &mut Bytes, mark: &[u8], text: &[u8]) -> Result<(), AllocError> {
    let mut begins = true;
    for byte in text {
        if begins {
            told.push_all(mark)?;
        }
        told.push_all(&[*byte])?;
        begins = *byte == b'\n';
    }
    if !begins {
        told.push_all(b"\\\n")?;
    }
    Ok(())
}
