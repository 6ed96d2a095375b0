// A trace file that hides nothing.
ghost use Rattle.std.specs.Prelude.{◌≡◌, [], ◌++◌, replicate, Ok};
ghost use Rattle.std.specs.Int.{to_be_bytes, w64};
ghost use Rattle.traces.specs.Headers.{labelled, word_of};
ghost use Rattle.traces.specs.Padding.{padded};

use piles::Pile;
use traces::{Label, close};

// An empty trace as a file. A new pile keeps every block, and a start of zeros changes none, so the padding stands in it as
// it is.
pub(crate) fn empty_file(label: Label) -> [u8; 24]
    requires { labelled label ≡ Ok (word_of label) }
    ensures { result ≡ to_be_bytes w64 (word_of label) ++ replicate 8 0 ++ padded [] }
{
    let mut file = [0; 24];
    let _ = close(&mut Pile::new(), label, &[0; 8], &[], &mut file).unwrap();
    file
}
