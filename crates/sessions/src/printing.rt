// How the calls of a session are printed.
use chaining::{Call, Request};
use refusals::{Notice, Refusal};
use std::fmt;
use transcripts::same;

// Bytes as digits: all of a short run, and of a long one the first and the last block.
#[derive(Clone, Copy)]
struct Brief<'a>(&'a [u8]);

fn write_digits<W: fmt::Write>(f: &mut fmt::Formatter<W>, bytes: &[u8]) -> fmt::Result {
    for byte in bytes {
        write!(f, "{byte:02X}")?;
    }
    Ok(())
}

impl fmt::Display for Brief<'_> {
    fn fmt<W: fmt::Write>(&self, f: &mut fmt::Formatter<W>) -> fmt::Result {
        let bytes = self.0;
        let count = bytes.len();
        if count == 0 {
            return f.write_str("-");
        }
        if count <= 128 {
            return write_digits(f, bytes);
        }
        write_digits(f, &bytes[..8])?;
        f.write_str("..")?;
        write_digits(f, &bytes[count - 8..])?;
        write!(f, "({count})")
    }
}

// The answer to a call, if it has one.
#[derive(Clone, Copy)]
struct Answer(Option<Result<(), Refusal>>);

impl fmt::Display for Answer {
    fn fmt<W: fmt::Write>(&self, f: &mut fmt::Formatter<W>) -> fmt::Result {
        match self.0 {
            None => f.write_str("unanswered"),
            Some(Ok(())) => f.write_str("ok"),
            Some(Err(refusal)) => {
                let notice = Notice::from(refusal);
                write!(f, "refused {notice}")
            }
        }
    }
}

// The name of a request.
fn name(request: &Request<Vec<u8>>) -> &str {
    match request {
        Request::Pass(_) => "pass",
        Request::Turn => "turn",
        Request::Restart(_) => "restart",
    }
}

// The bytes that a request brings.
fn bytes(request: &Request<Vec<u8>>) -> Brief<'_> {
    match request {
        Request::Pass(run) => Brief(run.as_slice()),
        Request::Turn => Brief(&[]),
        Request::Restart(start) => Brief(start.as_slice()),
    }
}

// A call as it was brought, as the first bench left it, and as the second left that.
#[derive(Clone, Copy)]
pub(crate) struct Trip<'a> {
    pub(crate) brought: &'a Call,
    pub(crate) between: &'a Call,
    pub(crate) after: &'a Call,
}

impl fmt::Display for Trip<'_> {
    fn fmt<W: fmt::Write>(&self, f: &mut fmt::Formatter<W>) -> fmt::Result {
        let name = name(&self.brought.request);
        let brought = bytes(&self.brought.request);
        let between = bytes(&self.between.request);
        let after = bytes(&self.after.request);
        let there = Answer(self.after.earlier);
        let back = Answer(self.after.answer);
        write!(
            f,
            "{name} {brought} left {between} {there} back {after} {back}"
        )?;
        if same(&self.brought.request, &self.after.request) {
            f.write_str(" given back")
        } else {
            f.write_str(" not given back")
        }
    }
}
