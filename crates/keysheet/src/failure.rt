//! What may go wrong, and the line that says so.
use std::alloc::AllocError;
use std::io;
use thiserror::Error;

/// Why the program ends with status 1.
#[derive(Debug, Drop, Error)]
pub enum Failure {
    #[error("no command is given: try 'keysheet help'")]
    NoCommand,
    #[error("there is no command '{0}': try 'keysheet help'")]
    UnknownCommand(String),
    #[error("no file is named: 'keysheet show FILE' wants one")]
    NoFile,
    #[error("one word too many, '{0}': 'keysheet show FILE' wants one file")]
    ExtraWord(String),
    #[error("{path} cannot be read: {error}")]
    Unreadable { path: String, error: io::Error },
    #[error("{path}: {sentence}")]
    Refused { path: String, sentence: String },
    #[error("the report cannot be written: {0}")]
    Output(#[from] io::Error),
    #[error("there is not enough memory")]
    Memory(#[from] AllocError),
}
