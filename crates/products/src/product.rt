// Products with a byte: those of equations (20) and (21) of document 000, which give the errors of two tracks.
// A matrix of eight by eight bits is its eight columns in one number, column k, which is the product with
// 2^k, in byte k.
ghost use Rattle.std.specs.Prelude.{◌≡◌, ◌-◌, ◌^◌, ◌<◌, ◌≤◌};
ghost use Rattle.indexed.specs.List.{tabulate};
ghost use Rattle.register.specs.Shift.{shifts};
ghost use Rattle.rectangular.specs.Constants.{feedback, exponent};
ghost use Rattle.rectangular.specs.Syndrome.{erasure};
ghost use Rattle.group6250.specs.Packed.{bytes_of};
ghost use Rattle.products.specs.Product.{product_of};

use group6250::group::parity;
use remainder::restored;

// A matrix times a byte: the sum of the columns that the ones of x pick. Bit k of x comes to stand alone in
// byte k, where an addition makes it the highest bit of that byte; times 255 it is the mask of a whole column.
fn applied(columns: u64, x: u8) -> u8
    ensures { result ≡ product_of columns x }
{
    let alone = ((x as u64) * 0x0101010101010101) & 0x8040201008040201;
    let highest = (alone + 0x00406070787C7E7F) & 0x8080808080808080;
    let masks = (highest >> 7) * 255;
    parity(masks & columns)
}

// The inverses of I + T^d, of equation (21), for d from 1.
static INVERSES: [u64; 7] = [
    0x97D7F7E7EFEBE9E8,
    0x9A4DBA5DB259B058,
    0x318442218C46238D,
    0xC5FE7FA3CDFA7DA2,
    0x48241209984C2613,
    0xEE77A7CFFBE1EC76,
    0x3C1E0F9BD1F47A3D,
];

// The inverse of I + T^d.
#[tactic(auto, using(crate::proofs::Matrix::inverses))]
fn erasure_columns(d: usize) -> u64
    requires { (1 ≤ d) × (d ≤ 7) }
    ensures { bytes_of result ≡ tabulate 8 (λ k. erasure 8 feedback exponent d (2 ^ k)) }
{
    INVERSES[d - 1]
}

// The inverse of I + T^d times x.
pub fn erasure_product(d: usize, x: u8) -> u8
    requires { (1 ≤ d) × (d ≤ 7) }
    ensures { result ≡ erasure 8 feedback exponent d x }
{
    applied(erasure_columns(d), x)
}

// T^-i times x: x shifted down, and what the i bits leave that fall out. Those are moved up to stand as the
// highest of seven, so that one table serves every i.
pub fn backward_power(i: usize, x: u8) -> u8
    requires { i < 8 }
    ensures { result ≡ shifts 8 feedback (exponent - i) x }
{
    let byte = x as u64;
    let low = (byte << (7 - i)) % 128;
    (((byte >> i) ^ restored(low as u8)) % 256) as u8
}
