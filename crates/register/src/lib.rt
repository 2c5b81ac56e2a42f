// Numbers as polynomials over two elements, and shift registers on them: specs/ has the definitions and
// proofs/ the laws that both densities' codes use, over the width. Its code is the product that tables of a
// matrix stand for.

#![tactic(auto)]

ghost use Rattle.std.specs.Prelude.{◌≡◌};
ghost use Rattle.register.specs.Matrix.{product};

// A matrix of eight columns times a byte. Where time matters a table takes its place.
pub fn multiplied(columns: [u64; 8], byte: u8) -> u64
    ensures { result ≡ product columns byte }
{
    let mut sum: u64 = 0;
    let mut left = byte;
    for column in &columns {
        if left % 2 == 1 {
            sum ^= *column;
        }
        left /= 2;
    }
    sum
}
