// The corrected bytes of a record: stored group by group, and held to the padding rule.
ghost use Rattle.std.specs.Prelude.{◌≡◌, ◌++◌, ◌≤◌, length, drop};
ghost use Rattle.rectangular.specs.Constants.{bytes_per_group};
ghost use Rattle.rectangular.specs.Group.{information_of};
ghost use Rattle.group6250.specs.Packed.{byte_at};
ghost use Rattle.record6250.specs.Read.{padding_suits};

use group6250::transpose::transposed;
use rectangular::Code6250;

// Stores the seven information bytes of a group, B7 to B1, at the front: the columns of its tracks
// (document 000, "Orthogonal symmetry").
pub(crate) fn unpack(bytes: &mut [u8], tracks: u64)
    requires { bytes_per_group ≤ length bytes.old }
    ensures { bytes.new ≡ information_of 8 (λ j. byte_at j tracks) ++ drop bytes_per_group bytes.old }
{
    // with `to_be_bytes` and `copy_from_slice` in place of the loop a clean record took 5 percent longer, and more than before
    let characters = transposed(tracks);
    for k in 0..Code6250::BYTES {
        bytes[k] = ((characters >> (8 * (7 - k))) % 256) as u8;
    }
}

// The padding rule.
pub(crate) fn padding_suits(bytes: &[u8]) -> bool
    requires { bytes_per_group ≤ length bytes.now }
    ensures { result ≡ padding_suits bytes.now }
{
    let size = bytes.len();
    let last = bytes[size - 1] as usize;
    if last > Code6250::MOST_PADDING {
        return false;
    }
    bytes[size - 1 - last..size - 1]
        .iter()
        .all(|byte| *byte == 0)
}
