//! Reading items of XDR (RFC 4506).

ghost use Rattle.std.specs.Prelude.{◌≡◌, ◌<◌, ◌^◌, ◌%◌, ℕ, length, ◌+◌, MatchResult, IfOk, Some, None, drop};
ghost use Rattle.nfs_xdr.specs.Spelling.{padding};
ghost use Rattle.nfs_xdr.specs.Reading.{number_at, hyper_at, flag_at, fixed_at, opaque_at, pieces_at, all_zero};
ghost use Rattle.nfs_xdr.specs.Readers.{ReadsBy, ReadsPartBy, ReadsAs};
ghost use Rattle.nfs_xdr.specs.Text.{IsBytes};
ghost use Rattle.nfs_xdr.specs.Codec as codec;
ghost use Rattle.nfs_xdr.specs.Combinators as combinators;
ghost use Rattle.nfs_xdr.specs.Time.{time};

use crate::time::Time;
use std::marker::Model;

/// No item of the wanted kind stands at the cursor.
#[derive(Clone, Copy, Debug, PartialEq, Eq)]
pub struct Unreadable;

/// Reads the items that stand at the front of some bytes, one behind the other, and lends what it can.
///
/// Contracts see it as the bytes that are left. Each read has two clauses: `exact` says what the reading function of
/// the item gives, and `spelled` that a value is returned exactly where its spelling stands.
#[derive(Drop)]
pub struct Cursor<'a> {
    bytes: &'a [u8],
}

impl<'a> Model for Cursor<'a> {
    ghost use Rattle.std.specs.Prelude.{List, ℕ};

    ghost Value = { List ℕ };

    ghost view = { λ a. a.bytes.now };

    ghost use Rattle.nfs_xdr.specs.Text.{IsBytes};

    ghost invariant = { λ a. IsBytes a.bytes.now };
}

/// Whether all of `bytes` are zero.
fn zeros(bytes: &[u8]) -> bool
    ensures { result ≡ all_zero bytes.now }
{
    bytes.iter().all(|b| *b == 0)
}

/// The number at the front, and what stands behind it.
fn word(bytes: &[u8]) -> Result<(u32, &[u8]), Unreadable>
    ensures exact { MatchResult result (λ x. number_at bytes.now ≡ Some (x.0, x.1.now)) (λ _. number_at bytes.now ≡ None) }
    ensures behind { IfOk result (λ x. x.1.now ≡ drop 4 bytes.now) }
{
    let Some((front, rest)) = bytes.split_first_chunk::<4>() else {
        return Err(Unreadable);
    };
    Ok((u32::from_be_bytes(*front), rest))
}

/// The pieces behind the count at the front, and what stands behind them.
#[tactic(auto, unfolding(crate::specs::Reading::pieces_at))]
fn pieces_of<const N: usize>(bytes: &[u8]) -> Result<(&[[u8; N]], &[u8]), Unreadable>
    requires { (0 < N) × (N < 2 ^ 16) }
    ensures exact { MatchResult result (λ x. pieces_at N bytes.now ≡ Some (x.0.now, x.1.now)) (λ _. pieces_at N bytes.now ≡ None) }
    ensures behind { IfOk result (λ x. (k : ℕ) × (x.1.now ≡ drop k bytes.now)) }
{
    let (count, rest) = word(bytes)?;
    let count = count as usize;
    if rest.len() < count * N {
        return Err(Unreadable);
    }
    let (items, rest) = rest.split_at(count * N);
    let (items, _) = items.as_chunks::<N>();
    Ok((items, rest))
}

/// The bytes of a fixed opaque at the front, and what stands behind its padding.
#[tactic(auto, unfolding(crate::specs::Reading::fixed_at))]
fn padded(bytes: &[u8], length: usize) -> Result<(&[u8], &[u8]), Unreadable>
    requires { length < 2 ^ 32 }
    ensures exact { MatchResult result (λ x. fixed_at length bytes.now ≡ Some (x.0.now, x.1.now)) (λ _. fixed_at length bytes.now ≡ None) }
    ensures behind { IfOk result (λ x. x.1.now ≡ drop (length + padding length) bytes.now) }
{
    let padding = (4 - length % 4) % 4;
    if bytes.len() < length + padding {
        return Err(Unreadable);
    }
    let (value, rest) = bytes.split_at(length);
    let (fill, _) = rest.split_at(padding);
    if !zeros(fill) {
        return Err(Unreadable);
    }
    let (_, rest) = bytes.split_at(length + padding);
    Ok((value, rest))
}

impl<'a> Cursor<'a> {
    /// A cursor at the front of `bytes`.
    pub fn new(bytes: &'a [u8]) -> Cursor<'a>
        ensures { result ≡ bytes.now }
    {
        Cursor { bytes }
    }

    /// The bytes that are left.
    pub fn rest(&self) -> &'a [u8]
        ensures { result.now ≡ self.now }
    {
        self.bytes
    }

    /// How many bytes are left.
    pub fn left(&self) -> usize
        ensures { result ≡ length self.now }
    {
        self.bytes.len()
    }

    /// Takes an unsigned int or an enum of four bytes (RFC 4506 sections 4.2 and 4.3).
    ///
    /// Unreadable where fewer than four bytes are left; the cursor is then unmoved.
    pub fn u32(&mut self) -> Result<u32, Unreadable>
        ensures exact { ReadsBy (λ n. n) result (number_at self.old) self.old self.new }
        ensures spelled { ReadsAs codec.number (λ n. n) result self.old self.new }
    {
        self.take_u32()
    }

    /// Takes an unsigned hyper of eight bytes (RFC 4506 section 4.5).
    ///
    /// Unreadable where fewer than eight bytes are left; the cursor is then unmoved.
    pub fn u64(&mut self) -> Result<u64, Unreadable>
        ensures exact { ReadsBy (λ n. n) result (hyper_at self.old) self.old self.new }
        ensures spelled { ReadsAs codec.hyper (λ n. n) result self.old self.new }
    {
        self.take_u64()
    }

    /// Takes a hyper of eight bytes, two's complement (RFC 4506 section 4.5).
    ///
    /// Unreadable where fewer than eight bytes are left; the cursor is then unmoved.
    pub fn i64(&mut self) -> Result<i64, Unreadable>
        ensures exact { ReadsBy (λ z. z) result (codec.signed.read self.old) self.old self.new }
        ensures spelled { ReadsAs codec.signed (λ z. z) result self.old self.new }
    {
        self.take_i64()
    }

    /// Takes a bool, which is the number 0 or 1 (RFC 4506 section 4.4).
    ///
    /// Unreadable where no number is left or it is another one; the cursor is then unmoved.
    pub fn flag(&mut self) -> Result<bool, Unreadable>
        ensures exact { ReadsBy (λ b. b) result (flag_at self.old) self.old self.new }
        ensures spelled { ReadsAs codec.flag (λ b. b) result self.old self.new }
    {
        self.take_flag()
    }

    /// Takes a variable-length opaque of at most `limit` bytes and lends its bytes (RFC 4506 section 4.10).
    ///
    /// Unreadable where its length is above `limit`, it is cut, or its padding is not zero; the cursor is then
    /// unmoved.
    pub fn opaque(&mut self, limit: u32) -> Result<&'a [u8], Unreadable>
        ensures exact { ReadsBy (λ x. x.now) result (opaque_at limit self.old) self.old self.new }
        ensures spelled { ReadsAs (codec.opaque limit) (λ x. x.now) result self.old self.new }
    {
        self.take_opaque(limit)
    }

    /// Takes a fixed-length opaque of `N` bytes (RFC 4506 section 4.9).
    ///
    /// Unreadable where it is cut or its padding is not zero; the cursor is then unmoved.
    pub fn fixed<const N: usize>(&mut self) -> Result<[u8; N], Unreadable>
        requires { N < 2 ^ 32 }
        ensures exact { ReadsBy (λ x. x) result (fixed_at N self.old) self.old self.new }
        ensures spelled { ReadsAs (combinators.fixed N) (λ x. x) result self.old self.new }
    {
        self.take_fixed::<N>()
    }

    /// Takes an array of opaques of `N` bytes, whole words each, and lends them: a count and that many pieces
    /// (RFC 4506 section 4.13).
    ///
    /// Unreadable where it is cut; the cursor is then unmoved.
    pub fn pieces<const N: usize>(&mut self) -> Result<&'a [[u8; N]], Unreadable>
        requires size { (0 < N) × (N < 2 ^ 16) }
        requires words { N % 4 ≡ 0 }
        ensures exact { ReadsBy (λ x. x.now) result (pieces_at N self.old) self.old self.new }
        ensures spelled { ReadsAs (codec.array (combinators.fixed N)) (λ x. x.now) result self.old self.new }
    {
        self.take_pieces::<N>()
    }

    /// Takes a moment: its seconds, two's complement, and its nanoseconds (RFC 8881 section 3.3.1).
    ///
    /// Unreadable where fewer than twelve bytes are left.
    #[tactic(auto, unfolding(crate::specs::Time::time))]
    pub fn time(&mut self) -> Result<Time, Unreadable>
        ensures { ReadsPartBy (λ t. t) result (time.read self.old) self.new }
    {
        let seconds = self.i64()?;
        let nanoseconds = self.u32()?;
        Ok(Time {
            seconds,
            nanoseconds,
        })
    }

    fn take_u32(&mut self) -> Result<u32, Unreadable>
        ensures bytes { IsBytes self.old }
        ensures exact { ReadsBy (λ n. n) result (number_at self.old) self.old self.new }
    {
        let Some((front, rest)) = self.bytes.split_first_chunk::<4>() else {
            return Err(Unreadable);
        };
        self.bytes = rest;
        Ok(u32::from_be_bytes(*front))
    }

    fn take_u64(&mut self) -> Result<u64, Unreadable>
        ensures bytes { IsBytes self.old }
        ensures exact { ReadsBy (λ n. n) result (hyper_at self.old) self.old self.new }
    {
        let Some((front, rest)) = self.bytes.split_first_chunk::<8>() else {
            return Err(Unreadable);
        };
        self.bytes = rest;
        Ok(u64::from_be_bytes(*front))
    }

    fn take_i64(&mut self) -> Result<i64, Unreadable>
        ensures bytes { IsBytes self.old }
        ensures exact { ReadsBy (λ z. z) result (codec.signed.read self.old) self.old self.new }
    {
        let bits = self.take_u64()?;
        Ok(bits.cast_signed())
    }

    #[tactic(auto, unfolding(crate::specs::Reading::flag_at))]
    fn take_flag(&mut self) -> Result<bool, Unreadable>
        ensures bytes { IsBytes self.old }
        ensures exact { ReadsBy (λ b. b) result (flag_at self.old) self.old self.new }
    {
        let Some((front, rest)) = self.bytes.split_first_chunk::<4>() else {
            return Err(Unreadable);
        };
        match u32::from_be_bytes(*front) {
            0 => {
                self.bytes = rest;
                Ok(false)
            }
            1 => {
                self.bytes = rest;
                Ok(true)
            }
            _ => Err(Unreadable),
        }
    }

    #[tactic(auto, unfolding(crate::specs::Reading::opaque_at))]
    fn take_opaque(&mut self, limit: u32) -> Result<&'a [u8], Unreadable>
        ensures bytes { IsBytes self.old }
        ensures exact { ReadsBy (λ x. x.now) result (opaque_at limit self.old) self.old self.new }
    {
        let Some((front, rest)) = self.bytes.split_first_chunk::<4>() else {
            return Err(Unreadable);
        };
        let length = u32::from_be_bytes(*front);
        if length > limit {
            return Err(Unreadable);
        }
        let (value, rest) = padded(rest, length as usize)?;
        self.bytes = rest;
        Ok(value)
    }

    #[tactic(auto, unfolding(crate::specs::Reading::fixed_at))]
    fn take_fixed<const N: usize>(&mut self) -> Result<[u8; N], Unreadable>
        requires { N < 2 ^ 32 }
        ensures bytes { IsBytes self.old }
        ensures exact { ReadsBy (λ x. x) result (fixed_at N self.old) self.old self.new }
    {
        let (value, rest) = padded(self.bytes, N)?;
        let mut bytes = [0; N];
        bytes.copy_from_slice(value);
        self.bytes = rest;
        Ok(bytes)
    }

    fn take_pieces<const N: usize>(&mut self) -> Result<&'a [[u8; N]], Unreadable>
        requires { (0 < N) × (N < 2 ^ 16) }
        ensures bytes { IsBytes self.old }
        ensures exact { ReadsBy (λ x. x.now) result (pieces_at N self.old) self.old self.new }
    {
        let (items, rest) = pieces_of::<N>(self.bytes)?;
        self.bytes = rest;
        Ok(items)
    }
}
