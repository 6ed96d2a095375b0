// The files of a folder.
use crate::failures::Failure;
use std::fs;
use std::rt::Files;

// What a trace is closed with, each file byte for byte.
#[derive(Drop)]
pub(crate) struct Inputs {
    pub description: Vec<u8>,
    pub key: Vec<u8>,
    pub start: Vec<u8>,
    pub plain: Vec<u8>,
}

fn read(rt: &(impl Files + AllocGlobal), name: &'static str) -> Result<Vec<u8>, Failure> {
    fs::read(rt, name).map_err(|error| Failure::Unread(name, error))
}

impl Inputs {
    pub fn read(rt: &(impl Files + AllocGlobal)) -> Result<Inputs, Failure> {
        Ok(Inputs {
            description: read(rt, "pile.txt")?,
            key: read(rt, "key.bin")?,
            start: read(rt, "start.bin")?,
            plain: read(rt, "plain.bin")?,
        })
    }
}

pub(crate) fn write(rt: &impl Files, name: &'static str, bytes: &[u8]) -> Result<(), Failure> {
    fs::write(rt, name, bytes).map_err(|error| Failure::Unwritten(name, error))
}
