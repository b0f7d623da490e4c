use thiserror::Error;

/// The rules that a field of an object may break.
#[derive(Clone, Copy, Debug, PartialEq, Eq)]
pub enum ObjectRule {
    /// The tag is 0 or 1.
    Tag,
    /// A key has 1 to 64 bytes.
    KeyLength,
    /// A value has at most 1,024 bytes.
    ValueLength,
}

/// Why bytes are not an object: the first fault from the left, or bytes left over.
#[derive(Clone, Copy, Debug, PartialEq, Eq, Error)]
pub enum ObjectError {
    /// The bytes end before the object does.
    #[error("the bytes end inside the object")]
    Short,
    /// Bytes follow the object.
    #[error("bytes follow the object")]
    Trailing,
    /// The tag before the value is neither 0 nor 1.
    #[error("the tag before the value is neither 0 nor 1")]
    BadTag,
    /// The length of the key is not 1 to 64.
    #[error("the length of the key is not 1 to 64 bytes")]
    KeyLength,
    /// The length of the value is greater than 1,024.
    #[error("the length of the value is greater than 1024 bytes")]
    ValueLength,
    /// Memory ran out.
    #[error("out of memory")]
    Memory,
}
