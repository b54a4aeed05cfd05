//! The names of fields and of arrays.
ghost use Rattle.std.specs.Hash as fed;
ghost use Rattle.elem_descr.specs.Names.{is_field_name_byte, is_legal_name};
ghost use Rattle.std.proofs.Common.{rules};
ghost use Rattle.std.specs.Prelude.{IfOk, IsTrue, codes, decimal, length, ◌++◌, ◌≡◌, ◌≤◌};
ghost use Rattle.elem_descr.specs.Words.{nat_list_eq_equiv, hashing, partial_equiv_from_equiv, list_all, bytes_eq};

use itoa::Buffer;
use smallvec::SmallVec;
use std::alloc::{AllocError, Global};
use std::hash::{Hash, Hasher};
use std::marker::Model;

/// The maximum number of bytes of a field's name.
pub const MAX_NAME_LEN: usize = 64;

/// The name of a field, as its bytes.
#[derive(Debug, Drop)]
pub struct FieldName {
    bytes: Vec<u8>,
}

impl Model for FieldName {
    ghost use Rattle.std.specs.Prelude.{List, ℕ};

    ghost Value = { List ℕ };

    ghost view = { λ name. name.bytes.items };
}

impl FieldName {
    pub fn from_slice(alloc: Global, bytes: &[u8]) -> Result<FieldName, AllocError>
        ensures { IfOk result (λ name. name ≡ bytes.now) }
    {
        let bytes = Vec::from_slice(alloc, bytes)?;
        Ok(FieldName { bytes })
    }

    /// The default name of a field: `f` and its number among the fields.
    #[tactic(auto, using(crate::proofs::DefaultNames::legal_number))]
    pub fn numbered(alloc: Global, number: usize) -> Result<FieldName, AllocError>
        requires { number ≤ 64 }
        ensures value { IfOk result (λ name. name ≡ codes "f" ++ decimal number) }
        ensures legal { IfOk result (λ name. IsTrue (is_legal_name name)) }
    {
        let mut buffer = Buffer::new();
        let mut bytes = Vec::from_slice(alloc, b"f")?;
        bytes.extend_from_slice(buffer.format(number).as_bytes())?;
        Ok(FieldName { bytes })
    }

    pub fn as_slice(&self) -> &[u8]
        ensures { result.now ≡ self.now }
    {
        self.bytes.as_slice()
    }
}

fn is_name_byte(byte: u8) -> bool
    ensures { result ≡ is_field_name_byte byte }
{
    matches!(byte, b' '..=b'~') && !b"'\"\\:".contains(&byte)
}

fn are_name_bytes(name: &[u8]) -> bool
    ensures { result ≡ list_all is_field_name_byte name.now }
{
    name.iter().all(|b| is_name_byte(*b))
}

/// Whether a field may have this name.
pub fn is_legal_name(name: &[u8]) -> bool
    ensures { result ≡ is_legal_name name.now }
{
    !name.is_empty() && name.len() <= MAX_NAME_LEN && are_name_bytes(name)
}

/// The maximum number of bytes of an array's name.
pub const LONGEST_NAME: usize = 32;

/// A name in the script: at most 32 bytes, which take no memory of their own.
#[derive(Drop)]
pub struct Name {
    bytes: SmallVec<u8, 32>,
}

impl Model for Name {
    ghost use Rattle.std.specs.Prelude.{List, ℕ, ◌≤◌, length};

    ghost Value = { List ℕ };

    ghost view = { λ n. n.bytes.items };

    ghost invariant = { λ n. length n.bytes.items ≤ 32 };
}

impl PartialEq for Name {
    ghost eq = { λ name other. bytes_eq name other };

    ghost laws = { partial_equiv_from_equiv nat_list_eq_equiv };

    fn eq(&self, other: &Name) -> bool {
        self.as_slice() == other.as_slice()
    }
}

impl Eq for Name {
    ghost laws = { nat_list_eq_equiv };
}

impl Hash for Name {
    ghost hash_input = { λ name. fed.slice fed.u8 name };

    ghost respects_eq = { Prim.search (hashing, rules) };

    fn hash<H: Hasher>(&self, state: &mut H) {
        self.as_slice().hash(state);
    }
}

impl Name {
    /// A copy of the bytes.
    pub fn from_slice(alloc: Global, bytes: &[u8]) -> Name
        requires { length bytes.now ≤ 32 }
        ensures { result ≡ bytes.now }
    {
        Name {
            bytes: SmallVec::from_slice(alloc, bytes).unwrap(),
        }
    }

    pub fn copy(alloc: Global, name: &Name) -> Name
        ensures { result ≡ name.now }
    {
        Name::from_slice(alloc, name.as_slice())
    }

    pub fn as_slice(&self) -> &[u8]
        ensures value { result.now ≡ self.now }
        ensures short { length result.now ≤ 32 }
    {
        self.bytes.as_slice()
    }
}
