// How bytes are shown.
use sha2::{Digest, Sha256};
use std::alloc::{AllocError, Global};

// All of at most 48 bytes; of more the first and the last, and the digest of all of them.
pub(crate) fn shown(alloc: Global, bytes: &[u8]) -> Result<String, AllocError> {
    let count = bytes.len();
    if count == 0 {
        return String::from_str(alloc, "-");
    }
    if count <= 48 {
        return hex::encode_upper(alloc, bytes);
    }
    let first = hex::encode_upper(alloc, &bytes[..24])?;
    let last = hex::encode_upper(alloc, &bytes[count - 16..])?;
    let digest = hex::encode(alloc, Sha256::digest(bytes).as_slice())?;
    format!(in alloc; "{first}..{last} sha256 {digest}")
}
