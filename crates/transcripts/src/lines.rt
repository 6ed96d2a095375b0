// A line of a session's text.
ghost use Rattle.std.specs.Prelude.{◌≡◌, IfOk};
ghost use Rattle.std.specs.Option.{option_map};
ghost use Rattle.transcripts.specs.Lines.{said, line_of};

use crate::hex_text::bytes;
use chaining::Request;
use std::alloc::{AllocError, Global};

// What a line says.
#[derive(Clone, Debug, PartialEq, Eq, Drop)]
pub enum Line<R> {
    // The key of a new session.
    Key(R),
    Call(Request<R>),
}

// Reads a line; none where it says nothing.
pub fn read(heap: Global, line: &[u8]) -> Result<Option<Line<Vec<u8>>>, AllocError>
    ensures { IfOk result (λ l. option_map said l ≡ line_of line.now) }
{
    if let Some(digits) = line.strip_prefix(b"key ") {
        return Ok(bytes(heap, digits)?.map(Line::Key));
    }
    if let Some(digits) = line.strip_prefix(b"pass ") {
        return Ok(bytes(heap, digits)?.map(|run| Line::Call(Request::Pass(run))));
    }
    if let Some(digits) = line.strip_prefix(b"restart ") {
        return Ok(bytes(heap, digits)?.map(|start| Line::Call(Request::Restart(start))));
    }
    match line {
        b"turn" => Ok(Some(Line::Call(Request::Turn))),
        _ => Ok(None),
    }
}
