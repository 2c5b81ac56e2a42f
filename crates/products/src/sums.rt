// Sums of powers of T: the check syndrome (document 000, equation (14)), and the products T^i x. Tracks are
// packed in one number, track j in bits 8j to 8j + 7.
ghost use Rattle.std.specs.Prelude.{◌≡◌, ◌*◌, ◌/◌, ◌%◌, ◌^◌, ◌<◌};
ghost use Rattle.register.specs.Shift.{shifts};
ghost use Rattle.register.specs.Sum.{xor_sum};
ghost use Rattle.register.specs.Xor.{◌⊕◌};
ghost use Rattle.rectangular.specs.Constants.{feedback};
ghost use Rattle.rectangular.specs.Syndrome.{check_syndrome};
ghost use Rattle.group6250.specs.Packed.{byte_at};

use remainder::reduced;

// The sum of X^j Z_j, unreduced, which has 15 bits: tracks are added two by two, then the sums of two, then
// those of four.
#[tactic(auto, using(crate::proofs::Check::summed_is), unfolding(crate::proofs::Check::summed, crate::proofs::Check::halved))]
fn sum(tracks: u64) -> u64
    ensures { result ≡ xor_sum 8 (λ j. byte_at j tracks * 2 ^ j) }
{
    let twos = (tracks & 0x00FF00FF00FF00FF) ^ ((tracks & 0xFF00FF00FF00FF00) >> 7);
    let fours = (twos & 0x0000FFFF0000FFFF) ^ ((twos & 0xFFFF0000FFFF0000) >> 14);
    (fours & 0x00000000FFFFFFFF) ^ ((fours & 0xFFFFFFFF00000000) >> 28)
}

// A sum of 15 bits, reduced modulo g: its lowest eight bits, and what the seven above them leave.
#[tactic(auto, using(crate::proofs::Check::reduced_is))]
fn reduced_sum(sum: u64) -> u8
    ensures { result ≡ (sum % 256) ⊕ shifts 8 feedback 8 (sum / 256 % 128) }
{
    ((sum ^ reduced((sum / 256 % 128) as u8)) % 256) as u8
}

// The check syndrome S2.
pub fn check_syndrome(tracks: u64) -> u8
    ensures { result ≡ check_syndrome 8 feedback (λ j. byte_at j tracks) }
{
    reduced_sum(sum(tracks))
}

// T^i times x: what X^i x leaves.
pub fn forward_power(i: usize, x: u8) -> u8
    requires { i < 8 }
    ensures { result ≡ shifts 8 feedback i x }
{
    reduced_sum((x as u64) << i)
}
