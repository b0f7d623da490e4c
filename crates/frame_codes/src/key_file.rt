ghost use Rattle.std.specs.Prelude.{◌≡◌, ◌≢◌, IfOk, IfErr, map, Ok, Err};
ghost use Rattle.std.specs.Str.Lines.{lines};
ghost use Rattle.frame_codes.specs.KeyFiles.{key_in, key_file};
ghost use Rattle.frame_codes.specs.declared.key_file.KeyFileError.TheVariants.{Memory};

use hex::FromHexError;
use std::alloc::{AllocError, Global};
use thiserror::Error;

/// The keys of an ensemble: the first seals frames, and each opens them. So a key is changed host by
/// host: the new one goes second on each, then first on each, and then the old one goes.
#[derive(Clone, Copy, Drop)]
pub struct KeyFile {
    pub first: [u8; 32],
    pub second: Option<[u8; 32]>,
}

/// Why a text is no key file. Lines, and the bytes in a line, count from 1. The first fault of the text
/// is given, and a length before a digit.
#[derive(Clone, Copy, Debug, PartialEq, Eq, Error)]
pub enum KeyFileError {
    /// There is no line.
    #[error("the key file is empty: write a key of 64 hexadecimal digits into its first line")]
    Empty,
    /// The line has this many bytes, and not 64.
    #[error("line {line} of the key file has {count} bytes: a key is 64 hexadecimal digits, and nothing else")]
    Length { line: u32, count: usize },
    /// This byte of the line is no hexadecimal digit.
    #[error("line {line} of the key file: byte {at} is no hexadecimal digit (0 to 9, a to f, A to F)")]
    Digit { line: u32, at: usize },
    /// There are more than two lines.
    #[error("the key file has more than two lines: keep the key that seals, and below it one that only opens")]
    MoreLines,
    /// Memory ran out.
    #[error("out of memory")]
    Memory,
}

impl From<AllocError> for KeyFileError {
    ghost from_gives = { λ _ e. e ≡ Memory };

    fn from(_e: AllocError) -> KeyFileError {
        KeyFileError::Memory
    }
}

/// Returns the lines of a text.
fn lines_of(alloc: Global, text: &str) -> Result<Vec<&str>, AllocError>
    ensures { IfOk result (λ v. map (λ line. line.now) v.items ≡ lines text.now) }
{
    text.lines().collect(alloc)
}

/// Reads the key in the line of this number.
fn key_at(line: u32, text: &str) -> Result<[u8; 32], KeyFileError>
    ensures { result ≡ key_in line text.now }
{
    let mut key = [0; 32];
    match hex::decode_to_slice(text.as_bytes(), &mut key) {
        Ok(()) => Ok(key),
        Err(FromHexError::InvalidHexCharacter { index, .. }) => Err(KeyFileError::Digit {
            line,
            at: index + 1,
        }),
        Err(_) => Err(KeyFileError::Length {
            line,
            count: text.len(),
        }),
    }
}

impl KeyFile {
    /// Reads a key file: one line or two, each of 64 hexadecimal digits. A line ends with a line feed, or a
    /// carriage return and a line feed; the last one may end with the text.
    pub fn read(alloc: Global, text: &str) -> Result<KeyFile, KeyFileError>
        ensures exact { result ≢ Err KeyFileError.Memory → result ≡ key_file text.now }
    {
        let lines = lines_of(alloc, text)?;
        match lines.as_slice() {
            [] => Err(KeyFileError::Empty),
            [first] => Ok(KeyFile {
                first: key_at(1, first)?,
                second: None,
            }),
            [first, second] => Ok(KeyFile {
                first: key_at(1, first)?,
                second: Some(key_at(2, second)?),
            }),
            [first, second, ..] => {
                key_at(1, first)?;
                key_at(2, second)?;
                Err(KeyFileError::MoreLines)
            }
        }
    }
}
