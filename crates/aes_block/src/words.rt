//! Four bytes as one word, the first byte highest.

ghost use Rattle.std.specs.Prelude.{◌≡◌};
ghost use Rattle.aes_block.specs.Words.{bytes_of};

// The words of 16 bytes.
pub(crate) fn load(bytes: &[u8; 16]) -> [u32; 4]
    ensures { bytes_of result ≡ bytes.now }
{
    [
        u32::from_be_bytes([bytes[0], bytes[1], bytes[2], bytes[3]]),
        u32::from_be_bytes([bytes[4], bytes[5], bytes[6], bytes[7]]),
        u32::from_be_bytes([bytes[8], bytes[9], bytes[10], bytes[11]]),
        u32::from_be_bytes([bytes[12], bytes[13], bytes[14], bytes[15]]),
    ]
}

// The bytes of four words.
pub(crate) fn store(words: &[u32; 4]) -> [u8; 16]
    ensures { result ≡ bytes_of words.now }
{
    let first = words[0].to_be_bytes();
    let second = words[1].to_be_bytes();
    let third = words[2].to_be_bytes();
    let fourth = words[3].to_be_bytes();
    [
        first[0], first[1], first[2], first[3], second[0], second[1], second[2], second[3],
        third[0], third[1], third[2], third[3], fourth[0], fourth[1], fourth[2], fourth[3],
    ]
}
