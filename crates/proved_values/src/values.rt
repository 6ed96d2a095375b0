// The table, as the code makes it.
ghost use Rattle.std.specs.Prelude.{◌≡◌};
ghost use Rattle.proved_values.specs.Values.{table, worked_out};

use crate::rows;
use idea::Words;

// Known values of the families; `specs/Values.antt` says what each is, and is the table.
#[derive(Clone, Copy, Debug, PartialEq, Eq)]
pub struct ProvedValues {
    pub two_by_32769: u16,
    pub zero_by_zero: u16,
    pub wadd_left_wraps: u64,
    pub wadd_without_carry: u64,
    pub xtea_cycle_of_zeros: u64,
    pub s1_of_011011: Option<u8>,
    pub des_example: u64,
    pub idea_second_eight: [u16; 8],
    pub idea_turned_closing: Words,
    pub idea_example: u64,
    pub header: u64,
    pub padded_nothing: [u8; 8],
}

// Each value, by the ordinary calls of its family.
pub fn proved_values() -> ProvedValues
    ensures table { result ≡ table }
    ensures defined { result ≡ worked_out }
{
    ProvedValues {
        two_by_32769: rows::two_by_32769(),
        zero_by_zero: rows::zero_by_zero(),
        wadd_left_wraps: rows::wadd_left_wraps(),
        wadd_without_carry: rows::wadd_without_carry(),
        xtea_cycle_of_zeros: rows::xtea_cycle_of_zeros(),
        s1_of_011011: rows::s1_of_011011(),
        des_example: rows::des_example(),
        idea_second_eight: rows::idea_second_eight(),
        idea_turned_closing: rows::idea_turned_closing(),
        idea_example: rows::idea_example(),
        header: rows::header(),
        padded_nothing: rows::padded_nothing(),
    }
}
