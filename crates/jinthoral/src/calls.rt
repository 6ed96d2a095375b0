// The calls that C makes.
ghost use Rattle.std.specs.Prelude.{◌≡◌, length, replicate};
ghost use Rattle.piles.specs.Fitting.{fitting};
ghost use Rattle.traces.specs.Closing.{Closes};
ghost use Rattle.traces.specs.Opening.{Opens};
ghost use Rattle.jinthoral.specs.Calls.{Passes, Told, Under, direction_of};
ghost use Rattle.jinthoral.specs.Replies.{opened_reply_of, reply_of};

use crate::passes::pass;
use crate::replies::{OpenedReply, Reply};
use piles::Pile;
use refusals::Refusal;
use traces::{Label, Opened, close, open};

// Fits a pile, and closes a trace under it.
fn close_under(
    description: &[u8],
    key: &mut [u8],
    label: Label,
    start: &[u8],
    plain: &[u8],
    output: &mut [u8],
) -> Result<usize, Refusal>
    ensures closes { Under (fitting description.now key.old) key.old (λ S. Closes S label start.now plain.now) output.old output.new result }
    ensures blank { key.new ≡ replicate (length key.old) 0 }
{
    let mut pile = Pile::fitted(description, key)?;
    close(&mut pile, label, start, plain, output)
}

// Fits a pile, and opens a trace file under it.
fn open_under(
    description: &[u8],
    key: &mut [u8],
    file: &[u8],
    output: &mut [u8],
) -> Result<Opened, Refusal>
    ensures opens { Under (fitting description.now key.old) key.old (λ S. Opens S file.now) output.old output.new result }
    ensures blank { key.new ≡ replicate (length key.old) 0 }
{
    let mut pile = Pile::fitted(description, key)?;
    open(&mut pile, file, output)
}

// A run passed under a pile.
#[unsafe(no_mangle)]
pub extern "C" fn jinthoral_pass(
    description: &[u8],
    key: &mut [u8],
    opening: bool,
    start: &[u8],
    run: &mut [u8],
) -> Reply
    ensures pass { Told reply_of (Under (fitting description.now key.old) key.old (λ S. Passes (direction_of opening) start.now S) run.old run.new) result }
    ensures blank { key.new ≡ replicate (length key.old) 0 }
{
    Reply::from(pass(description, key, opening, start, run))
}

// A trace closed under a pile.
#[unsafe(no_mangle)]
pub extern "C" fn jinthoral_close(
    description: &[u8],
    key: &mut [u8],
    axis: u32,
    serial: u32,
    number: u32,
    start: &[u8],
    plain: &[u8],
    output: &mut [u8],
) -> Reply
    ensures closes { Told reply_of (Under (fitting description.now key.old) key.old (λ S. Closes S (record { axis = axis; serial = serial; number = number }) start.now plain.now) output.old output.new) result }
    ensures blank { key.new ≡ replicate (length key.old) 0 }
{
    let label = Label {
        axis,
        serial,
        number,
    };
    Reply::from(close_under(description, key, label, start, plain, output))
}

// A trace file opened under a pile.
#[unsafe(no_mangle)]
pub extern "C" fn jinthoral_open(
    description: &[u8],
    key: &mut [u8],
    file: &[u8],
    output: &mut [u8],
) -> OpenedReply
    ensures opens { Told opened_reply_of (Under (fitting description.now key.old) key.old (λ S. Opens S file.now) output.old output.new) result }
    ensures blank { key.new ≡ replicate (length key.old) 0 }
{
    OpenedReply::from(open_under(description, key, file, output))
}
