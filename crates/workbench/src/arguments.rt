// The three arguments: what the trace is labelled with.
use crate::failures::Failure;
use std::env;
use std::rt::Env;
use traces::Label;

fn number(name: &'static str, word: String) -> Result<u32, Failure> {
    match word.as_str().parse() {
        Ok(number) => Ok(number),
        Err(_) => Err(Failure::NoNumber { name, word }),
    }
}

pub(crate) fn label(rt: &(impl Env + AllocGlobal)) -> Result<Label, Failure> {
    let mut words = env::args(rt)
        .map_err(|error| Failure::Unread("the arguments", error))?
        .skip(1);
    let (Some(axis), Some(serial), Some(trace), None) = (
        words.next(),
        words.next(),
        words.next(),
        words.next(),
    ) else {
        return Err(Failure::Usage);
    };
    Ok(Label {
        axis: number("AXIS", axis)?,
        serial: number("SERIAL", serial)?,
        number: number("NUMBER", trace)?,
    })
}
