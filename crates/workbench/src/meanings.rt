// What refusals mean, in a sentence each. "There" is the place that a refusal tells, a byte of the description.
use refusals::Refusal;

pub(crate) fn meaning(refusal: Refusal) -> &'static str {
    match refusal {
        Refusal::DescriptionTooLong => "The description has more than 64 bytes.",
        Refusal::NoWord(_) => "The description has no word.",
        Refusal::UnknownName(_) =>
            "The word of the description that begins there names no stage; a line feed belongs to its word.",
        Refusal::BadCount(_) =>
            "What follows the colon there is no count that its name takes; a line feed belongs to its word.",
        Refusal::FifthWord(_) => "The description has a fifth word, which begins there.",
        Refusal::KeyLength => "The key has another number of bytes than the stages take together.",
        Refusal::StartLength => "The start has not 8 bytes.",
        Refusal::RunTooLong => "The run has more than 32,768 bytes.",
        Refusal::PlainTooLong => "The plain trace has more than 32,767 bytes.",
        Refusal::RunNotWhole => "The run is not whole blocks of 8 bytes.",
        Refusal::NoChainBlock => "The bench has no chain block.",
        Refusal::FieldTooLarge => "The axis is over 1, or the serial number over 16,777,215.",
        Refusal::FileLength =>
            "The file has under 24 bytes or over 32,784, or is not whole blocks.",
        Refusal::FileForm => "The file has another form, or a spare bit that is not 0.",
        Refusal::BadPadding => "What the file opens to does not end with padding.",
        Refusal::OutputTooShort => "The output is shorter than what is to be written.",
    }
}
