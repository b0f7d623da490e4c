use http1::Limits;

/// The greatest length of the body of a request, in bytes.
pub const MAX_BODY: usize = 1024;

/// How many header fields a request may have, and how many trailer fields.
pub const MAX_FIELDS: usize = 64;

/// The greatest length of the text of a request, in bytes. Only a chunked body whose sizes have many
/// leading zeros passes it before it passes another limit.
pub const MAX_TEXT: usize = 32 * 1024;

/// The limits of the parts of a request, in bytes: 16 KiB for the head, and 1,024 for all chunk
/// extensions of a body and for its trailers.
pub const LIMITS: Limits = Limits {
    max_head_len: 16 * 1024,
    max_extensions_len: 1024,
    max_trailers_len: 1024,
};
