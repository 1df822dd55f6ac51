//! Folders by their paths.

/// A number that a path goes by. If two have the same, a file that is put counts as one that was read.
pub(crate) fn number_of(path: &str) -> u64 {
    let (words, rest) = path.as_bytes().as_chunks::<8>();
    let mut number = 0xcbf2_9ce4_8422_2325u64;
    for word in words {
        number = (number ^ u64::from_le_bytes(*word)).wrapping_mul(0x9e37_79b9_7f4a_7c15);
        number ^= number >> 32;
    }
    for byte in rest {
        number = (number ^ u64::from(*byte)).wrapping_mul(0x0100_0000_01b3);
    }
    number
}

/// The path of the folder in which a path names something.
pub(crate) fn folder_of(path: &str) -> &str {
    match path.rsplit_once('/') {
        Some((folder, _)) => folder,
        None => "",
    }
}
