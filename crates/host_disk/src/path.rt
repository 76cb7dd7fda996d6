use crate::Name;
use std::alloc::{AllocError, Global};
use std::io::{self, ErrorKind, Write};

/// Ten digits, a dot and three letters.
const NAME_LEN: usize = 14;

/// The path of one file of a folder at a time. Its room is taken once, so later calls want no memory.
#[derive(Drop)]
pub(crate) struct NamePath {
    bytes: Vec<u8>,
    /// Where the name begins.
    front: usize,
}

impl NamePath {
    pub(crate) fn new(alloc: Global, folder: &str) -> Result<NamePath, AllocError> {
        let mut bytes = Vec::new(alloc);
        bytes.extend_from_slice(folder.as_bytes())?;
        bytes.push(b'/')?;
        let front = bytes.len();
        bytes.extend_from_slice(&[0; NAME_LEN])?;
        Ok(NamePath { bytes, front })
    }

    /// The path of this file from now on.
    pub(crate) fn set(&mut self, name: Name) -> io::Result<()> {
        let Some((_, mut room)) = self.bytes.as_mut_slice().split_at_mut_checked(self.front) else {
            return Err(invalid());
        };
        match name {
            Name::File(no) => write!(&mut room, "{no:010}.tsd"),
            Name::Unfinished(no) => write!(&mut room, "{no:010}.tmp"),
        }
    }

    pub(crate) fn text(&self) -> io::Result<&str> {
        text_of(&self.bytes)
    }

    /// The path of the folder, with a slash behind it.
    pub(crate) fn folder(&self) -> io::Result<&str> {
        match self.bytes.split_at_checked(self.front) {
            Some((folder, _)) => text_of(folder),
            None => Err(invalid()),
        }
    }
}

fn text_of(bytes: &[u8]) -> io::Result<&str> {
    match std::str::from_utf8(bytes) {
        Ok(text) => Ok(text),
        Err(_) => Err(invalid()),
    }
}

fn invalid() -> io::Error {
    io::Error::from(ErrorKind::InvalidFilename)
}
