//! Big-endian bytes: numbers and byte strings, appended to a list and taken from a slice.
ghost use Rattle.std.specs.Prelude.{◌≡◌, ◌≢◌, ℕ, ◌^◌, ◌<◌, ◌≤◌, List, [], ◌∷◌, ◌++◌, length, OnOk, OnErr, IfOk, IfErr};
ghost use Rattle.cat_base.specs.Bytes.{spelled_u32, spelled_u64, spelled_bytes, BeginsWithNo};
ghost use Rattle.cat_base.specs.declared.refusal.Refusal.TheVariants.{Damaged};

use crate::refusal::Refusal;
use std::alloc::AllocError;
use std::marker::Model;

/// Appends the number as 4 bytes, the high byte first. An error leaves the list as it was.
pub fn put_u32(out: &mut Vec<u8>, n: u32) -> Result<(), AllocError>
    ensures ok { OnOk result (out.new.items ≡ out.old.items ++ spelled_u32 n) }
    ensures err { OnErr result (out.new.items ≡ out.old.items) }
{
    out.extend_from_slice(&n.to_be_bytes())?;
    Ok(())
}

/// Appends the number as 8 bytes, the high byte first. An error leaves the list as it was.
pub fn put_u64(out: &mut Vec<u8>, n: u64) -> Result<(), AllocError>
    ensures ok { OnOk result (out.new.items ≡ out.old.items ++ spelled_u64 n) }
    ensures err { OnErr result (out.new.items ≡ out.old.items) }
{
    out.extend_from_slice(&n.to_be_bytes())?;
    Ok(())
}

/// Appends the number of bytes as [`put_u32`] does, and then the bytes, at most 4,294,967,295 of them. An error leaves the
/// list as it was.
pub fn put_bytes(out: &mut Vec<u8>, bytes: &[u8]) -> Result<(), AllocError>
    requires { length bytes.now ≤ 4294967295 }
    ensures ok { OnOk result (out.new.items ≡ out.old.items ++ spelled_bytes bytes.now) }
    ensures err { OnErr result (out.new.items ≡ out.old.items) }
{
    let len = bytes.len();
    // Room for the whole is taken first, so that an error leaves no length without its bytes.
    out.reserve(len + 4)?;
    out.extend_from_slice(&(len as u32).to_be_bytes())?;
    out.extend_from_slice(bytes)?;
    Ok(())
}

/// The bytes that are left to be read. Contracts see them as a list.
///
/// Each `take_` call takes from the front exactly what the `put_` call of that name appends, and takes no memory. It is
/// refused by [`Refusal::Damaged`] only where the bytes begin with nothing that was put so, and then leaves them.
#[derive(Drop)]
pub struct Cursor<'a> {
    left: &'a [u8],
}

impl<'a> Model for Cursor<'a> {
    ghost use Rattle.std.specs.Prelude.{ℕ, List};

    ghost Value = { List ℕ };

    ghost view = { λ c. c.left.now };
}

impl<'a> Cursor<'a> {
    /// A cursor at the first of the bytes.
    pub fn new(bytes: &'a [u8]) -> Self
        ensures { result ≡ bytes.now }
    {
        Cursor { left: bytes }
    }

    /// Takes one byte. [`Refusal::Damaged`] where none is left.
    pub fn take_u8(&mut self) -> Result<u8, Refusal>
        ensures ok { IfOk result (λ n. self.old ≡ n ∷ self.new) }
        ensures err { IfErr result (λ e. (e ≡ Damaged) × (self.new ≡ self.old) × (self.old ≡ [])) }
    {
        let Some((first, rest)) = self.left.split_first() else {
            return Err(Refusal::Damaged);
        };
        self.left = rest;
        Ok(*first)
    }

    /// Takes a number of 4 bytes. [`Refusal::Damaged`] where fewer are left: any 4 bytes are a number.
    pub fn take_u32(&mut self) -> Result<u32, Refusal>
        ensures ok { IfOk result (λ n. self.old ≡ spelled_u32 n ++ self.new) }
        ensures err { IfErr result (λ e. (e ≡ Damaged) × (self.new ≡ self.old) × (length self.old < 4)) }
        ensures none { OnErr result (BeginsWithNo spelled_u32 self.old) }
    {
        let left = self.left;
        if left.len() < 4 {
            return Err(Refusal::Damaged);
        }
        self.left = &left[4..];
        Ok(u32::from_be_bytes([left[0], left[1], left[2], left[3]]))
    }

    /// Takes a number of 8 bytes. [`Refusal::Damaged`] where fewer are left: any 8 bytes are a number.
    pub fn take_u64(&mut self) -> Result<u64, Refusal>
        ensures ok { IfOk result (λ n. self.old ≡ spelled_u64 n ++ self.new) }
        ensures err { IfErr result (λ e. (e ≡ Damaged) × (self.new ≡ self.old) × (length self.old < 8)) }
        ensures none { OnErr result (BeginsWithNo spelled_u64 self.old) }
    {
        let left = self.left;
        if left.len() < 8 {
            return Err(Refusal::Damaged);
        }
        self.left = &left[8..];
        Ok(u64::from_be_bytes([
            left[0], left[1], left[2], left[3], left[4], left[5], left[6], left[7],
        ]))
    }

    /// Takes a length of 4 bytes and that many bytes, which are borrowed from what the cursor reads and not copied.
    /// [`Refusal::Damaged`] where fewer are left.
    pub fn take_bytes(&mut self) -> Result<&'a [u8], Refusal>
        ensures ok { IfOk result (λ b. (self.old ≡ spelled_bytes b.now ++ self.new) × (length b.now < 2 ^ 32)) }
        ensures err { IfErr result (λ e. (e ≡ Damaged) × (self.new ≡ self.old)
            × ((bs rest : List ℕ) → length bs < 2 ^ 32 → self.old ≢ spelled_bytes bs ++ rest)) }
    {
        let left = self.left;
        if left.len() < 4 {
            return Err(Refusal::Damaged);
        }
        let len = u32::from_be_bytes([left[0], left[1], left[2], left[3]]) as usize;
        let rest = &left[4..];
        if rest.len() < len {
            return Err(Refusal::Damaged);
        }
        let (bytes, after) = rest.split_at(len);
        self.left = after;
        Ok(bytes)
    }

    /// Answers whether all bytes were taken, as a result so that a reader can end with it: [`Refusal::Damaged`] where
    /// one is left.
    pub fn ended(&self) -> Result<(), Refusal>
        ensures ok { OnOk result (self.now ≡ []) }
        ensures err { IfErr result (λ e. (e ≡ Damaged) × (self.now ≢ [])) }
    {
        if self.left.is_empty() {
            Ok(())
        } else {
            Err(Refusal::Damaged)
        }
    }
}

/// The law that makes a spelling exact: what is spelled alike is one, and what comes after it too. So bytes can be taken
/// in one way only.
pub fn spellings_are_exact()
    ensures u32s { (m n : ℕ) (r s : List ℕ) → m < 2 ^ 32 → n < 2 ^ 32
        → spelled_u32 m ++ r ≡ spelled_u32 n ++ s → (m ≡ n) × (r ≡ s) }
    ensures u64s { (m n : ℕ) (r s : List ℕ) → m < 2 ^ 64 → n < 2 ^ 64
        → spelled_u64 m ++ r ≡ spelled_u64 n ++ s → (m ≡ n) × (r ≡ s) }
    ensures byte_strings { (a b r s : List ℕ) → length a < 2 ^ 32 → length b < 2 ^ 32
        → spelled_bytes a ++ r ≡ spelled_bytes b ++ s → (a ≡ b) × (r ≡ s) }
{}
