// A trace file opened.
ghost use Rattle.std.specs.Prelude.{◌≡◌, ◌+◌, ◌≤◌, ◌%◌, length, take, IfOk, OnOk};
ghost use Rattle.std.specs.Result.{result_map_both};
ghost use Rattle.ciphers.specs.Maps.{SameMap};
ghost use Rattle.traces.specs.Files.{Closed, OnlyRun};
ghost use Rattle.traces.specs.Headers.{label_of};
ghost use Rattle.traces.specs.Laws.{GivesBack};
ghost use Rattle.traces.specs.Opening.{Gives, Opens, body_of, chain_of, judged_file, judged_plain, start_of};
ghost use Rattle.traces.specs.Padding.{unpadded};

use crate::closing::within;
use crate::headers::{Header, read_header};
use crate::padding::unpad;
use crate::runs::open_run;
use arrayvec::ArrayVec;
use ciphers::Cipher;
use piles::Pile;
use refusals::Refusal;

// The shortest file, and the longest.
const SHORTEST: usize = 24;

const LONGEST: usize = 32_784;

// What a file that was opened is labelled with, and how many bytes of plain it held.
#[derive(Clone, Copy, Debug, PartialEq, Eq)]
pub struct Opened {
    pub header: Header,
    pub length: usize,
}

// The header of a file.
#[tactic(auto, unfolding(crate::specs::Opening::judged_file))]
fn judge_file(file: &[u8]) -> Result<Header, Refusal>
    ensures value { result ≡ judged_file file.now }
    ensures some { OnOk result (24 ≤ length file.now) }
    ensures few { OnOk result (length file.now ≤ 32784) }
    ensures whole { OnOk result (length file.now % 8 ≡ 0) }
{
    if !(SHORTEST..=LONGEST).contains(&file.len()) || file.len() % 8 != 0 {
        return Err(Refusal::FileLength);
    }
    read_header(u64::from_be_bytes(*file.first_chunk().unwrap()))
}

// The start of a file, as a number.
#[tactic(auto, unfolding(crate::specs::Opening::chain_of))]
fn start(file: &[u8]) -> u64
    requires { 16 ≤ length file.now }
    ensures { result ≡ chain_of file.now }
{
    u64::from_be_bytes(*file[8..].first_chunk().unwrap())
}

// The plain of a run, where it has one and there is room for it.
fn judge_plain(run: &[u8], room: usize) -> Result<&[u8], Refusal>
    requires { 8 ≤ length run.now }
    ensures { result_map_both (λ plain. plain.now) (λ refusal. refusal) result ≡ judged_plain (unpadded run.now) room }
{
    let plain = unpad(run).ok_or(Refusal::BadPadding)?;
    let _ = within(room, plain.len())?;
    Ok(plain)
}

// A copy of a run, opened.
fn open_copy(pile: &mut Pile, start: u64, sealed: &[u8]) -> ArrayVec<u8, 32_768>
    requires few { length sealed.now ≤ 32768 }
    requires whole { length sealed.now % 8 ≡ 0 }
    ensures run { OnlyRun (⟦<Pile as Cipher>⟧.map pile.old) start sealed.now result.items }
    ensures len { length result.items ≡ length sealed.now }
    ensures map { SameMap (⟦<Pile as Cipher>⟧.map pile.new) (⟦<Pile as Cipher>⟧.map pile.old) }
{
    let mut run = ArrayVec::try_from(sealed).unwrap();
    open_run(pile, start, run.as_mut_slice());
    run
}

// The body of a file, opened: a plain and its padding. It is a copy, since nothing is written to an output before the
// padding is judged.
fn open_body(pile: &mut Pile, file: &[u8]) -> ArrayVec<u8, 32_768>
    requires some { 16 ≤ length file.now }
    requires few { length file.now ≤ 32784 }
    requires whole { length file.now % 8 ≡ 0 }
    ensures run { OnlyRun (⟦<Pile as Cipher>⟧.map pile.old) (chain_of file.now) (body_of file.now) result.items }
    ensures len { length result.items + 16 ≡ length file.now }
    ensures map { SameMap (⟦<Pile as Cipher>⟧.map pile.new) (⟦<Pile as Cipher>⟧.map pile.old) }
{
    open_copy(pile, start(file), &file[16..])
}

// Writes the plain of a run at the start of the output.
fn give(header: Header, run: &[u8], output: &mut [u8]) -> Result<Opened, Refusal>
    requires { 8 ≤ length run.now }
    ensures { Gives header (judged_plain (unpadded run.now) (length output.old)) output.old result output.new }
{
    let plain = judge_plain(run, output.len())?;
    let length = plain.len();
    output[..length].copy_from_slice(plain);
    Ok(Opened { header, length })
}

// Opens a file.
#[tactic(auto, using(crate::proofs::Given::opens_given, crate::proofs::Given::opens_refused))]
fn open_file(pile: &mut Pile, file: &[u8], output: &mut [u8]) -> Result<Opened, Refusal>
    ensures opens { Opens (⟦<Pile as Cipher>⟧.map pile.old) file.now output.old result output.new }
    ensures map { SameMap (⟦<Pile as Cipher>⟧.map pile.new) (⟦<Pile as Cipher>⟧.map pile.old) }
{
    let header = judge_file(file)?;
    let run = open_body(pile, file);
    give(header, run.as_slice(), output)
}

// Opens a file: writes its plain at the start of the output, and answers its label and the plain's length.
#[tactic(auto, using(crate::proofs::Returning::closing_if))]
pub fn open(pile: &mut Pile, file: &[u8], output: &mut [u8]) -> Result<Opened, Refusal>
    ensures opens { Opens (⟦<Pile as Cipher>⟧.map pile.old) file.now output.old result output.new }
    ensures map { SameMap (⟦<Pile as Cipher>⟧.map pile.new) (⟦<Pile as Cipher>⟧.map pile.old) }
    ensures given_back { GivesBack (⟦<Pile as Cipher>⟧.map pile.old) file.now output.old result output.new }
    ensures closing { IfOk result (λ o. Closed (⟦<Pile as Cipher>⟧.map pile.old) (label_of o.header) (start_of file.now) (take o.length output.new) file.now) }
{
    open_file(pile, file, output)
}
