//! Images byte by byte, taken and refused: what is taken is encoded as it was.

use super::*;
use std::alloc::{AllocError, Global};
use std::test::Fail;

// The parts of an image that vary: the state, and what stands behind the registers, without zeroes at its end; how many zeroes those are;
// and whether it is an image.
const IMAGES: [(&[u8], &[u8], usize, bool); 20] = [
    (&[0], &[], 4, true),
    (&[0], &[], 3, false),
    (&[0], &[], 5, false),
    (&[1, 7], &[], 4, true),
    (&[2, 5, 1, 2, 3, 4, 5, 6, 7, 8], &[], 4, true),
    (&[2, 6, 1, 2, 3, 4, 5, 6, 7, 8], &[], 4, false),
    (&[3], &[], 4, false),
    // a page: its number, its permissions, the vector of its lines
    (&[0], &[1, 0, 0, 0, 0xFF, 0xFF, 0xFF, 3, 7], 8, true),
    (&[0], &[1, 0, 0, 0, 0, 0, 0, 4, 7], 8, false),
    (&[0], &[1, 0, 0, 0, 16, 0, 0, 0, 1], 8, true),
    (&[0], &[1, 0, 0, 0, 16, 0, 0, 0, 2], 8, false),
    (&[0], &[1, 0, 0, 0, 16, 0, 0, 0, 3], 8, false),
    (&[0], &[1, 0, 0, 0, 16, 0, 0, 0, 8], 8, false),
    // lines 0 and 63
    (
        &[0],
        &[1, 0, 0, 0, 16, 0, 0, 0, 6, 1, 0, 0, 0, 0, 0, 0, 0x80, 9],
        127,
        true,
    ),
    (
        &[0],
        &[1, 0, 0, 0, 16, 0, 0, 0, 6, 1, 0, 0, 0, 0, 0, 0, 0x80, 9],
        126,
        false,
    ),
    (
        &[0],
        &[1, 0, 0, 0, 16, 0, 0, 0, 6, 1, 0, 0, 0, 0, 0, 0, 0x80, 9],
        128,
        false,
    ),
    // two pages
    (
        &[0],
        &[
            2, 0, 0, 0, 16, 0, 0, 0, 6, 0, 0, 0, 0, 0, 0, 0, 0, 17, 0, 0, 0, 4,
        ],
        8,
        true,
    ),
    (
        &[0],
        &[
            2, 0, 0, 0, 16, 0, 0, 0, 6, 0, 0, 0, 0, 0, 0, 0, 0, 16, 0, 0, 0, 4,
        ],
        8,
        false,
    ),
    (
        &[0],
        &[
            1, 0, 0, 0, 16, 0, 0, 0, 6, 0, 0, 0, 0, 0, 0, 0, 0, 17, 0, 0, 0, 4,
        ],
        8,
        false,
    ),
    (&[0], &[1, 0, 2, 0], 1_000, false),
];

// An image of these parts, in which each register has bytes of its own.
fn made(alloc: Global, state: &[u8], rest: &[u8], zeroes: usize) -> Result<Vec<u8>, AllocError> {
    let mut bytes = Vec::new(alloc);
    bytes.extend_from_slice(b"OVL1")?;
    bytes.extend_from_slice(state)?;
    for i in 0..=255u8 {
        bytes.push(i)?;
    }
    bytes.extend_from_slice(rest)?;
    for _ in 0..zeroes {
        bytes.push(0)?;
    }
    Ok(bytes)
}

// The image of the delta that bytes are the image of, and how long it was said to be.
fn again(alloc: Global, bytes: &[u8]) -> Result<(Vec<u8>, usize), ImageError> {
    let delta = decode(alloc, bytes)?;
    let image = encode(alloc, &delta)?;
    Ok((image, length_of(&delta)))
}

#[test]
fn images_are_taken_and_encoded_as_they_were(rt: HostRuntime) -> Result<(), Fail> {
    for (state, rest, zeroes, taken) in IMAGES {
        let bytes = made(rt.alloc(), state, rest, zeroes)?;
        match again(rt.alloc(), bytes.as_slice()) {
            Ok((image, length)) => {
                assert!(rt; taken, "{rest:?}");
                assert_eq!(rt; image.as_slice(), bytes.as_slice(), "{rest:?}");
                assert_eq!(rt; length, bytes.len(), "{rest:?}");
            }
            Err(error) => {
                assert_eq!(rt; (error, taken), (ImageError::BadImage, false), "{rest:?}");
            }
        }
    }
    Ok(())
}
