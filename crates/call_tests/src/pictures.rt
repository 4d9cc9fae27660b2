//! Pictures of wires from and to the hubs at the ends of the words that a picture is kept in: hubs 1, 64, 65, 1040, 1041 and 1936.

use crate::given::setup_of;
use hubs::Hub;
use hubs::setups::Tape;
use net::{Contacts, Net, Picture};
use std::test::Fail;

// The first two and the last of the exits, with the last also to the first entry.
#[rattlefmt::skip]
static ENDS: [(Hub, Hub); 5] = [
    (Hub::FR(1), Hub::CA(1)), (Hub::FR(64), Hub::RS), (Hub::FR(65), Hub::CA(1)), (Hub::HX(3), Hub::RS), (Hub::HX(3), Hub::CA(1)),
];

/// What emits, and the words of the picture that are not 0.
#[rattlefmt::skip]
static PICTURES: [(&[Hub], &[(usize, u64)]); 4] = [
    (&[], &[]),
    (&[Hub::FR(1)], &[(0, 1), (16, 1 << 16)]),
    (&[Hub::FR(64), Hub::HX(3)], &[(0, 1 << 63), (16, 1 << 15 | 1 << 16), (30, 1 << 15)]),
    (&[Hub::FR(65)], &[(1, 1), (16, 1 << 16)]),
];

// The words of the picture of the emitting exits, in a set that had hubs before.
fn words_of(net: &Net, exits: &[Hub]) -> [u64; 31] {
    let mut emitting = Picture::new();
    for &exit in exits {
        emitting.insert(exit);
    }
    let mut out = Picture::new();
    out.insert(Hub::W(1));
    net.picture(&emitting, &Contacts::new(), &mut out);
    *out.words()
}

// The words with some that are not 0.
fn words_with(some: &[(usize, u64)]) -> [u64; 31] {
    let mut words = [0; 31];
    for &(place, word) in some {
        if let Some(found) = words.get_mut(place) {
            *found = word;
        }
    }
    words
}

#[test]
fn hubs_at_the_ends_of_words(rt: HostRuntime) -> Result<(), Fail> {
    let setup = setup_of(rt.alloc(), Tape::new(66, 4, 60, &[])?, &ENDS)?;
    let net = Net::of(rt.alloc(), &setup)?;
    for (exits, words) in PICTURES {
        assert!(rt; words_of(&net, exits) == words_with(words));
    }
    Ok(())
}
