ghost use Rattle.std.specs.Prelude.{◌≡◌, IfOk};
ghost use Rattle.am_labels.specs.Hashes.{fingerprint, fingerprint_text, fnv32, fnv64_from, label_bytes, place as place_of};

use crate::Label;
use am_tenant::TenantName;
use am_text::Text;
use std::alloc::{AllocError, Global};

// What FNV-1a starts from at 32 and at 64 bits, and what it multiplies by.
const START_32: u32 = 2166136261;

const FACTOR_32: u32 = 16777619;

const START_64: u64 = 14695981039346656037;

const FACTOR_64: u64 = 1099511628211;

/// A tenant's place on the ring: the FNV-1a hash of 32 bits of its name.
pub fn place(tenant: &TenantName) -> u32
    ensures { result ≡ place_of tenant.now }
{
    fnv32(tenant.as_bytes())
}

/// A fingerprint as 16 lower hexadecimal digits.
#[tactic(auto, unfolding(crate::specs::Hashes::fingerprint_text))]
pub fn print_fingerprint(alloc: Global, fingerprint: u64) -> Result<Text, AllocError>
    ensures { IfOk result (λ text. text ≡ fingerprint_text fingerprint) }
{
    let digits = hex::encode(alloc, fingerprint.to_be_bytes())?;
    Ok(Text::from_string(digits))
}

// The FNV-1a hash of 32 bits.
#[tactic(auto, unfolding(crate::specs::Hashes::fnv32_from))]
fn fnv32(bytes: &[u8]) -> u32
    ensures { result ≡ fnv32 bytes.now }
{
    let mut hash = START_32;
    for byte in bytes {
        hash = (hash ^ u32::from(*byte)).wrapping_mul(FACTOR_32);
    }
    hash
}

// The FNV-1a hash of 64 bits of bytes that follow those that `hash` stands for.
#[tactic(auto, unfolding(crate::specs::Hashes::fnv64_from))]
fn fnv64_from(mut hash: u64, bytes: &[u8]) -> u64
    ensures { result ≡ fnv64_from hash bytes.now }
{
    for byte in bytes {
        hash = (hash ^ u64::from(*byte)).wrapping_mul(FACTOR_64);
    }
    hash
}

// The FNV-1a hash of 64 bits of a label that follows the bytes that `hash` stands for.
fn fnv64_from_label(hash: u64, label: &Label) -> u64
    ensures { result ≡ fnv64_from hash (label_bytes label.now) }
{
    let named = fnv64_from(hash, label.name.as_str().as_bytes());
    let parted = fnv64_from(named, &[255]);
    let valued = fnv64_from(parted, label.value.as_str().as_bytes());
    fnv64_from(valued, &[255])
}

// The fingerprint of labels in order of name.
#[tactic(auto, unfolding(crate::specs::Hashes::fingerprint))]
pub fn fingerprint_of(labels: &[Label]) -> u64
    ensures { result ≡ fingerprint labels.now }
{
    let mut hash = START_64;
    for label in labels {
        hash = fnv64_from_label(hash, label);
    }
    hash
}
