// Rows and columns exchanged (document 000, "Orthogonal symmetry"): eight bytes of eight bits in one number.
ghost use Rattle.std.specs.Prelude.{◌≡◌, ◌<◌};
ghost use Rattle.indexed.specs.List.{tabulate};
ghost use Rattle.rectangular.specs.Group.{column};
ghost use Rattle.group6250.specs.Packed.{byte_at, bytes_of, exchange};

// One step: the bits that the mask marks are exchanged with those a distance above them.
#[tactic(auto, unfolding(crate::specs::Packed::exchange))]
fn exchanged(x: u64, distance: usize, mask: u64) -> u64
    requires { distance < 64 }
    ensures { result ≡ exchange distance mask x }
{
    let unlike = (x ^ (x >> distance)) & mask;
    x ^ unlike ^ (unlike << distance)
}

// Bit j of byte i is bit i of byte j of x: in each square of two by two bits the two off the diagonal
// change places, then so do squares of two by two, then those of four by four.
pub fn transposed(x: u64) -> u64
    ensures { bytes_of result ≡ tabulate 8 (column 8 (λ j. byte_at j x)) }
{
    let bits = exchanged(x, 7, 0x00AA00AA00AA00AA);
    let pairs = exchanged(bits, 14, 0x0000CCCC0000CCCC);
    exchanged(pairs, 28, 0x00000000F0F0F0F0)
}
