// The reasons for which calls turn a caller away.

// A case for each reason.
#[derive(Clone, Copy, Debug, PartialEq, Eq)]
pub enum Refusal {
    // A description has more than 64 bytes.
    DescriptionTooLong,
    // A description has no word; how many bytes it has.
    NoWord(usize),
    // A word's name is none that is known; where the word begins.
    UnknownName(usize),
    // A word has a colon, and what follows it is no count that its name takes; where the colon stands.
    BadCount(usize),
    // A description has a fifth word; where it begins.
    FifthWord(usize),
    // A key has other than the bytes that its stages take together.
    KeyLength,
    // A start has other than eight bytes.
    StartLength,
    // A run has more than 32,768 bytes.
    RunTooLong,
    // A plain trace has more than 32,767 bytes.
    PlainTooLong,
    // A run is not whole blocks of eight bytes.
    RunNotWhole,
    // A run, even an empty one, was brought to a bench that has no chain block.
    NoChainBlock,
    // An axis is over 1, or a serial number has more than 24 bits.
    FieldTooLarge,
    // A trace file has fewer than 24 bytes or more than 32,784, or is not whole blocks of eight.
    FileLength,
    // A trace file has another form, or a spare bit that is not 0.
    FileForm,
    // What a trace file opens to does not end with padding.
    BadPadding,
    // An output is shorter than what is to be written.
    OutputTooShort,
}
