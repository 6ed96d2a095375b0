// The S-boxes: six bits to four.
ghost use Rattle.std.specs.Prelude.{◌≡◌, ℕ, ◌+◌, ◌-◌, ◌*◌, ◌/◌, ◌%◌, ◌<◌, ◌&&◌, nat_le, nat_lt, IfSome, if◌then◌else◌};
ghost use Rattle.des.specs.Boxes.{boxed, row_of, column_of, row_of_box, times_in};
ghost use Rattle.des.specs.internal.BoxTable.{box_numbers};

use crate::tables::BOXES;

// The eight boxes, four rows of sixteen numbers to each.
#[tactic(auto, unfolding(crate::specs::internal::BoxTable::box_numbers))]
fn numbers() -> &'static [u8; 512]
    ensures { result.now ≡ box_numbers }
{
    &BOXES
}

// Where the table has what box `index + 1` makes of six bits: the outer two choose the row, the four between the column.
fn place(index: usize, six: usize) -> usize
    requires eight { index < 8 }
    requires six { six < 64 }
    ensures value { result ≡ 16 * (4 * index + row_of six) + column_of six }
    ensures within { result < 512 }
{
    let row = 2 * (six / 32) + six % 2;
    let column = six / 2 % 16;
    16 * (4 * index + row) + column
}

// What box `index + 1` makes of six bits: four bits, and the row that has them has them once.
#[tactic(auto, using(crate::proofs::Rows::entry, crate::proofs::Rows::boxed_fits, crate::proofs::Rows::row_once))]
fn substitute(index: usize, six: usize) -> u8
    requires eight { index < 8 }
    requires six { six < 64 }
    ensures value { result ≡ boxed index six }
    ensures four { result < 16 }
    ensures row { (v : ℕ) → v < 16 → times_in (row_of_box index six) v ≡ 1 }
{
    numbers()[place(index, six)]
}

// What S-box `number`, from 1 to 8, makes of six bits. None of any other number, or of more bits.
pub fn s_box(number: usize, six: usize) -> Option<u8>
    ensures value { result ≡ (if nat_le 1 number && nat_le number 8 && nat_lt six 64 then Some (boxed (number - 1) six) else None) }
    ensures four { IfSome result (λ four. four < 16) }
    ensures row { IfSome result (λ _. (v : ℕ) → v < 16 → times_in (row_of_box (number - 1) six) v ≡ 1) }
{
    if (1..=8).contains(&number) && six < 64 {
        Some(substitute(number - 1, six))
    } else {
        None
    }
}
