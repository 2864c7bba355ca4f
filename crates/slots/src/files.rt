// Files read whole.
use crate::help::TREE;
use gate_input::read_full;
use std::error::Error;
use std::io::{self, Read};
use std::rt::Files;
use std::{fmt, fs, str};

// The system's numbers of the reasons below.
const ENOENT: i32 = 2;

const EACCES: i32 = 13;

const EISDIR: i32 = 21;

const EINVAL: i32 = 22;

const ENAMETOOLONG: i32 = 36;

// Why a file was not read.
#[derive(Debug, Drop)]
pub enum ReadError {
    TooLong,
    Unopened(io::Error),
    Broken(io::Error),
}

// By the system's number, since std has one kind for several; std refuses some names before the system sees them.
fn reason(error: &io::Error) -> &'static str {
    match error.raw_os_error() {
        Some(ENOENT) => "there is no such file",
        Some(EACCES) => "that isn't permitted",
        Some(EISDIR) => "it is a folder",
        Some(EINVAL) | None => "its name is no path",
        Some(ENAMETOOLONG) => "its name is too long",
        Some(_) => "the system refuses",
    }
}

impl fmt::Display for ReadError {
    fn fmt<W: fmt::Write>(&self, f: &mut fmt::Formatter<W>) -> fmt::Result {
        match self {
            ReadError::TooLong => write!(f, "not read: longer than {TREE} bytes"),
            ReadError::Unopened(error) => write!(f, "not opened: {}", reason(error)),
            ReadError::Broken(error) => write!(f, "not read: {}", reason(error)),
        }
    }
}

impl Error for ReadError {}

// All that is left of an open file, which ends after it, or else is too long.
fn read_rest(file: &mut impl Read, bytes: &mut [u8]) -> Result<usize, ReadError> {
    let n = read_full(file, bytes).map_err(ReadError::Broken)?;
    match file.read(&mut [0u8; 1]).map_err(ReadError::Broken)? {
        0 => Ok(n),
        _ => Err(ReadError::TooLong),
    }
}

// The file of this name, and how many bytes it has; `-` is standard input. A name that isn't UTF-8 is no path here.
pub fn read_file(
    rt: &(impl Files + Input),
    name: &[u8],
    bytes: &mut [u8],
) -> Result<usize, ReadError> {
    if name == b"-".as_slice() {
        return read_rest(&mut rt.reader(), bytes);
    }
    let Ok(path) = str::from_utf8(name) else {
        return Err(ReadError::Unopened(io::Error::from_raw_os_error(EINVAL)));
    };
    let mut file = fs::open(rt, path).map_err(ReadError::Unopened)?;
    read_rest(&mut file, bytes)
}
