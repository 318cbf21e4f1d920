ghost use Rattle.std.specs.Prelude.{◌≡◌};
ghost use Rattle.am_ring.specs.Distances.{distance, tokens};

use crate::instance::Instance;

// The tokens of each instance: token k of instance i is the 32-bit FNV-1a hash of the text `i/k`.
const TOKENS: [[u32; 16]; 8] = [
    [
        0x71452d7b, 0x70452be8, 0x734530a1, 0x72452f0e, 0x754533c7, 0x74453234, 0x774536ed,
        0x7645355a, 0x694520e3, 0x68451f50, 0x94e40508, 0x95e4069b, 0x96e4082e, 0x97e409c1,
        0x98e40b54, 0x99e40ce7,
    ],
    [
        0x421bf91a, 0x431bfaad, 0x401bf5f4, 0x411bf787, 0x3e1bf2ce, 0x3f1bf461, 0x3c1befa8,
        0x3d1bf13b, 0x3a1bec82, 0x3b1bee15, 0x420b8527, 0x410b8394, 0x440b884d, 0x430b86ba,
        0x3e0b7edb, 0x3d0b7d48,
    ],
    [
        0xc743f1e5, 0xc643f052, 0xc543eebf, 0xc443ed2c, 0xc343eb99, 0xc243ea06, 0xc143e873,
        0xc043e6e0, 0xcf43fe7d, 0xce43fcea, 0x7ef36a46, 0x7ff36bd9, 0x7cf36720, 0x7df368b3,
        0x82f37092, 0x83f37225,
    ],
    [
        0xa01eaffc, 0xa11eb18f, 0xa21eb322, 0xa31eb4b5, 0x9c1ea9b0, 0x9d1eab43, 0x9e1eacd6,
        0x9f1eae69, 0xa81ebc94, 0xa91ebe27, 0x6251cfad, 0x6151ce1a, 0x6051cc87, 0x5f51caf4,
        0x5e51c961, 0x5d51c7ce,
    ],
    [
        0xc5e57567, 0xc4e573d4, 0xc7e5788d, 0xc6e576fa, 0xc1e56f1b, 0xc0e56d88, 0xc3e57241,
        0xc2e570ae, 0xbde568cf, 0xbce5673c, 0xd9356fec, 0xda35717f, 0xdb357312, 0xdc3574a5,
        0xd53569a0, 0xd6356b33,
    ],
    [
        0xf66d2646, 0xf76d27d9, 0xf46d2320, 0xf56d24b3, 0xfa6d2c92, 0xfb6d2e25, 0xf86d296c,
        0xf96d2aff, 0xfe6d32de, 0xff6d3471, 0x69d5d3cb, 0x68d5d238, 0x6bd5d6f1, 0x6ad5d55e,
        0x6dd5da17, 0x6cd5d884,
    ],
    [
        0x1af6b731, 0x19f6b59e, 0x18f6b40b, 0x17f6b278, 0x1ef6bd7d, 0x1df6bbea, 0x1cf6ba57,
        0x1bf6b8c4, 0x12f6aa99, 0x11f6a906, 0x8d6000ea, 0x8e60027d, 0x8b5ffdc4, 0x8c5fff57,
        0x895ffa9e, 0x8a5ffc31,
    ],
    [
        0xc379ac18, 0xc479adab, 0xc579af3e, 0xc679b0d1, 0xc779b264, 0xc879b3f7, 0xc979b58a,
        0xca79b71d, 0xbb799f80, 0xbc79a113, 0xe68c4b01, 0xe58c496e, 0xe48c47db, 0xe38c4648,
        0xea8c514d, 0xe98c4fba,
    ],
];

// The tokens of the instance.
fn tokens(instance: Instance) -> &'static [u32; 16]
    ensures { result.now ≡ tokens instance }
{
    &TOKENS[instance.index()]
}

// How far the instance lies from a place: the least of token - place - 1 over its tokens, modulo 2^32.
#[tactic(auto, unfolding(crate::specs::Distances::distance))]
pub fn distance(instance: Instance, place: u32) -> u32
    ensures { result ≡ distance place instance }
{
    let tokens = tokens(instance);
    let mut least = u32::MAX;
    for token in tokens {
        least = least.min(token.wrapping_sub(place).wrapping_sub(1));
    }
    least
}
