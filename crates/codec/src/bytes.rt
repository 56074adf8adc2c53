// Numbers and parts at the beginning of bytes, each with the rest behind it; numbers have their highest byte first.
#![tactic(auto, using(crate::proofs::Numbers::laid_out))]

ghost use Rattle.std.specs.Prelude.{◌≡◌, ℕ, ◌^◌, ◌<◌};
ghost use Rattle.std.proofs.Common.{lit<};
ghost use Rattle.std.specs.Option.{option_map};
ghost use Rattle.promise.specs.Bytes.{be, number, number_in, part_in, lengthed_in, ended};
ghost use Rattle.codec.specs.Views.{numbered, parted};

// A number that is laid out in so many bytes. Each type has an impl of its own text: the gate takes none that a macro writes.
pub trait Number<const N: usize>: Copy {
    ghost value: { Self → ℕ };

    fn from_be(bytes: &[u8; N]) -> Self
        ensures { value result ≡ number bytes.now };

    fn to_be(self) -> [u8; N]
        ensures { result ≡ be N (value self) };

    // so many bytes can lie in memory
    ghost small: { N < 2 ^ 63 };
}

impl Number<1> for u8 {
    ghost value = { λ n. n };

    fn from_be(bytes: &[u8; 1]) -> u8 {
        u8::from_be_bytes(*bytes)
    }

    fn to_be(self) -> [u8; 1] {
        u8::to_be_bytes(self)
    }

    ghost small = { lit< tt };
}

impl Number<2> for u16 {
    ghost value = { λ n. n };

    fn from_be(bytes: &[u8; 2]) -> u16 {
        u16::from_be_bytes(*bytes)
    }

    fn to_be(self) -> [u8; 2] {
        u16::to_be_bytes(self)
    }

    ghost small = { lit< tt };
}

impl Number<4> for u32 {
    ghost value = { λ n. n };

    fn from_be(bytes: &[u8; 4]) -> u32 {
        u32::from_be_bytes(*bytes)
    }

    fn to_be(self) -> [u8; 4] {
        u32::to_be_bytes(self)
    }

    ghost small = { lit< tt };
}

impl Number<8> for u64 {
    ghost value = { λ n. n };

    fn from_be(bytes: &[u8; 8]) -> u64 {
        u64::from_be_bytes(*bytes)
    }

    fn to_be(self) -> [u8; 8] {
        u64::to_be_bytes(self)
    }

    ghost small = { lit< tt };
}

// The number that bytes begin with, and the rest of them.
pub fn read_number<T: Number<N>, const N: usize>(b: &[u8]) -> Option<(T, &[u8])>
    ensures { option_map (numbered T.value) result ≡ number_in N b.now }
{
    let (first, rest) = b.split_first_chunk::<N>()?;
    Some((T::from_be(first), rest))
}

pub(crate) fn read_part(b: &[u8], size: usize) -> Option<(&[u8], &[u8])>
    ensures { option_map parted result ≡ part_in size b.now }
{
    b.split_at_checked(size)
}

// A length in one byte, and then so many bytes: also the first of the names in an answer, and the rest of them. One function for this and for `read_bytes`, generic in the length's type, would
// need a way from each such type to a length, and be no plainer than these two lines each; so it is with their writers.
pub fn read_name(b: &[u8]) -> Option<(&[u8], &[u8])>
    ensures { option_map parted result ≡ lengthed_in 1 b.now }
{
    let (size, rest) = read_number::<u8, _>(b)?;
    read_part(rest, size as usize)
}

// A length in four bytes, and then so many bytes.
pub(crate) fn read_bytes(b: &[u8]) -> Option<(&[u8], &[u8])>
    ensures { option_map parted result ≡ lengthed_in 4 b.now }
{
    let (size, rest) = read_number::<u32, _>(b)?;
    read_part(rest, size as usize)
}

// The value, if nothing follows it.
pub(crate) fn ended<T: Copy>(value: T, rest: &[u8]) -> Option<T>
    ensures { result ≡ ended value rest.now }
{
    rest.is_empty().then_some(value)
}
