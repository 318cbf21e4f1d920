//! Tenant names.
//!
//! A tenant name is 1 to 150 bytes of `0-9 a-z A-Z ! - _ . * ' ( )`, and not `.`, `..` or
//! `__mimir_cluster`. It lies in the value itself, so making, copying and comparing one takes no memory.
#![tactic(auto)]

ghost use Rattle.std.specs.Prelude.{◌≡◌, ◌≤◌, ◌↔◌, length, IsTrue, IsOk, IfOk, MatchResult, None, Some, refl};
ghost use Rattle.std.specs.List.{list_all};
ghost use Rattle.std.specs.Ordering.{nat_cmp};
ghost use Rattle.std.specs.Cmp.{partial_equiv_from_equiv};
ghost use Rattle.std.specs.Cmp.Lexicographic.{slice_cmp, nat_list_eq_equiv, nat_list_cmp_total, texts_po, texts_ties};
ghost use Rattle.std.specs.Str.{bytes_eq};
ghost use Rattle.am_tenant.specs.Names.{code_of, is_name_byte, is_reserved, is_tenant_name, longest_name, name_refusal, with_zeros};

use std::cmp::Ordering;
use std::error::Error;
use std::marker::Model;
use std::{fmt, str};

/// The greatest length of a tenant name in bytes.
pub const LONGEST: usize = 150;

/// Why some bytes are no tenant name.
#[derive(Clone, Copy, Debug, PartialEq, Eq)]
pub enum NameRefusal {
    /// There is no byte.
    Empty,
    /// There are more than 150 bytes.
    TooLong,
    /// A byte is not one of `0-9 a-z A-Z ! - _ . * ' ( )`.
    BadByte,
    /// The name is `.`, `..` or `__mimir_cluster`.
    Reserved,
}

impl NameRefusal {
    /// The code of the refusal, `N1` to `N4`.
    pub fn code(self) -> &'static str
        ensures { result.now ≡ code_of self }
    {
        match self {
            NameRefusal::Empty => "N1",
            NameRefusal::TooLong => "N2",
            NameRefusal::BadByte => "N3",
            NameRefusal::Reserved => "N4",
        }
    }
}

impl fmt::Display for NameRefusal {
    ghost output = { λ refusal. Some (code_of refusal) };

    fn fmt<W: fmt::Write>(&self, f: &mut fmt::Formatter<W>) -> fmt::Result {
        f.pad(self.code())
    }
}

impl Error for NameRefusal {}

/// A tenant name: its bytes, then zeros up to the greatest length.
#[derive(Clone, Copy)]
pub struct TenantName {
    bytes: [u8; LONGEST],
    len: u8,
}

impl Model for TenantName {
    ghost use Rattle.std.specs.Prelude.{◌≡◌, ℕ, List, IsTrue, length, take};
    ghost use Rattle.am_tenant.specs.Names.{is_tenant_name, with_zeros};

    ghost Value = { List ℕ };

    ghost view = { λ name. take name.len name.bytes };

    ghost invariant = { λ name. (name.len ≡ length (take name.len name.bytes)) × (name.bytes ≡ with_zeros (take name.len name.bytes)) × IsTrue (is_tenant_name (take name.len name.bytes)) };

    ghost inverse = { λ name. record { bytes = with_zeros name; len = length name } };
}

impl TenantName {
    /// The tenant name that these bytes are, or the first refusal that they meet, in the order of
    /// [`NameRefusal`].
    pub fn read(bytes: &[u8]) -> Result<TenantName, NameRefusal>
        ensures ok { IsOk result ↔ IsTrue (is_tenant_name bytes.now) }
        ensures name { IfOk result (λ name. name ≡ bytes.now) }
        ensures refusal { MatchResult result (λ _. name_refusal bytes.now ≡ None) (λ refusal. name_refusal bytes.now ≡ Some refusal) }
    {
        match refusal_of(bytes) {
            Some(refusal) => Err(refusal),
            None => Ok(TenantName {
                bytes: pad(bytes),
                len: bytes.len() as u8,
            }),
        }
    }

    /// The name as text.
    pub fn as_str(&self) -> &str
        ensures text { result.now ≡ self.now }
        ensures name { IsTrue (is_tenant_name self.now) }
    {
        match str::from_utf8(self.as_bytes()) {
            Ok(text) => text,
            Err(_) => unreachable!(),
        }
    }

    /// The bytes of the name.
    pub fn as_bytes(&self) -> &[u8]
        ensures bytes { result.now ≡ self.now }
        ensures name { IsTrue (is_tenant_name self.now) }
    {
        &self.bytes[..self.len as usize]
    }
}

impl PartialEq for TenantName {
    ghost eq = { λ a b. bytes_eq a b };

    ghost laws = { partial_equiv_from_equiv nat_list_eq_equiv };

    fn eq(&self, other: &TenantName) -> bool {
        self.as_bytes() == other.as_bytes()
    }
}

impl Eq for TenantName {
    ghost laws = { nat_list_eq_equiv };
}

impl PartialOrd for TenantName {
    ghost partial_cmp = { λ a b. Some (slice_cmp nat_cmp a b) };

    ghost laws = { texts_po };

    fn partial_cmp(&self, other: &TenantName) -> Option<Ordering> {
        Some(self.cmp(other))
    }
}

/// By the bytes, the first that differs deciding; a name stands before the names that it begins.
impl Ord for TenantName {
    ghost cmp = { λ a b. slice_cmp nat_cmp a b };

    ghost total = { nat_list_cmp_total };

    ghost matches_partial_cmp = { λ a b. refl };

    ghost matches_eq = { λ a b. texts_ties a b };

    fn cmp(&self, other: &TenantName) -> Ordering {
        self.as_bytes().cmp(other.as_bytes())
    }
}

// The first refusal that a name meets.
#[tactic(auto, unfolding(crate::specs::Names::name_refusal))]
fn refusal_of(name: &[u8]) -> Option<NameRefusal>
    ensures { result ≡ name_refusal name.now }
{
    if name.is_empty() {
        Some(NameRefusal::Empty)
    } else if name.len() > LONGEST {
        Some(NameRefusal::TooLong)
    } else if !are_name_bytes(name) {
        Some(NameRefusal::BadByte)
    } else if is_reserved(name) {
        Some(NameRefusal::Reserved)
    } else {
        None
    }
}

// Whether each of these bytes may stand in a tenant name.
fn are_name_bytes(bytes: &[u8]) -> bool
    ensures { result ≡ list_all is_name_byte bytes.now }
{
    bytes.iter().all(|byte| is_name_byte(*byte))
}

// Whether this byte may stand in a tenant name.
#[tactic(auto, unfolding(crate::specs::Names::is_name_byte))]
fn is_name_byte(byte: u8) -> bool
    ensures { result ≡ is_name_byte byte }
{
    byte.is_ascii_alphanumeric() || b"!-_.*'()".contains(&byte)
}

// Whether no tenant may have this name.
#[tactic(auto, unfolding(crate::specs::Names::is_reserved))]
fn is_reserved(name: &[u8]) -> bool
    ensures { result ≡ is_reserved name.now }
{
    name == b".".as_slice() || name == b"..".as_slice() || name == b"__mimir_cluster".as_slice()
}

// The bytes, then zeros.
fn pad(bytes: &[u8]) -> [u8; LONGEST]
    requires { length bytes.now ≤ longest_name }
    ensures { result ≡ with_zeros bytes.now }
{
    let mut array = [0; LONGEST];
    array[..bytes.len()].copy_from_slice(bytes);
    array
}
