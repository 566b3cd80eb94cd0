//! The names of scratch files: `fazhitta-TOKEN-LANE-CLASS.scratch`, with a token of 16 hexadecimal
//! digits.

/// How a name begins, before its token.
pub(crate) const BEFORE: &str = "fazhitta-";

/// How a name ends.
pub(crate) const BEHIND: &str = ".scratch";

/// Whether a scratch file may have this name. Between its beginning and its end are more than 16
/// hexadecimal digits and dashes.
pub(crate) fn is_scratch(name: &str) -> bool {
    let middle = name
        .strip_prefix(BEFORE)
        .and_then(|rest| rest.strip_suffix(BEHIND));
    match middle {
        Some(middle) => middle.len() > 16 && are_digits(middle.as_bytes()),
        None => false,
    }
}

/// Whether all of these are hexadecimal digits and dashes.
fn are_digits(bytes: &[u8]) -> bool {
    bytes
        .iter()
        .all(|byte| byte.is_ascii_hexdigit() || *byte == b'-')
}
