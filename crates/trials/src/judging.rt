// A text sealed and opened again, held against what is known of it.
ghost use Rattle.std.specs.Prelude.{◌≡◌, ℕ, ◌^◌, ◌<◌, OnOk};
ghost use Rattle.ciphers.specs.Maps.{SameMap};
ghost use Rattle.trials.specs.Verdicts.{verdict_on};

use ciphers::{Undo, ways_back};
use known_answers::tally::{Fault, Verdict};

// Whether the block that was got is the known one.
fn compare(got: u64, known: u64) -> Verdict
    ensures { result ≡ verdict_on got known }
{
    if got == known {
        Ok(())
    } else {
        Err(Fault::Differs(got))
    }
}

// Whether the cipher seals the text to the known block and gives it back both ways; else the block that came instead.
// The text is then the only block that is sealed so. That it is given back is proved, and tried all the same.
pub fn judge<C: Undo>(cipher: &mut C, text: u64, sealed: u64) -> Verdict
    ensures value { result ≡ verdict_on (C.Cipher.map cipher.old text) sealed }
    ensures opens { OnOk result ((b : ℕ) → b < 2 ^ 64 → C.Cipher.map cipher.old b ≡ sealed → b ≡ text) }
    ensures same { SameMap (C.Cipher.map cipher.new) (C.Cipher.map cipher.old) }
{
    let got = cipher.seal(text);
    let opened = ways_back(cipher, got);
    compare(got, sealed)?;
    compare(opened.undone, text)?;
    compare(opened.turned, text)
}
