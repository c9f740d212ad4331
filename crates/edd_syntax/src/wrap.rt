// Numbers in two's complement.

ghost use Rattle.std.specs.Prelude.{◌≡◌, ◌≤◌, ◌<◌, ◌^◌};
ghost use Rattle.edd_syntax.specs.TwosComplement.{wrap, as_signed, residue};

/// The number of `width` bits in two's complement that equals z modulo 2 ^ width.
pub fn wrap(width: u32, z: i128) -> i64
    requires low { 1 ≤ width }
    requires high { width ≤ 64 }
    ensures { result ≡ wrap width z }
{
    as_signed(width, residue(width, z))
}

// The number from 0 on that equals z modulo 2 ^ width.
fn residue(width: u32, z: i128) -> u128
    requires { width ≤ 64 }
    ensures value { result ≡ residue width z }
    ensures below { result < 2 ^ width }
{
    z.rem_euclid(1i128 << width).unsigned_abs()
}

// The signed number that has the bits of n.
fn as_signed(width: u32, n: u128) -> i64
    requires low { 1 ≤ width }
    requires high { width ≤ 64 }
    requires below { n < 2 ^ width }
    ensures { result ≡ as_signed width n }
{
    if n < 1u128 << (width - 1) {
        n as i64
    } else {
        -(((1u128 << width) - n - 1) as i64) - 1
    }
}
