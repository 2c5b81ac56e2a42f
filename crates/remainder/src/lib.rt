// Remainders modulo g = 1 + X^3 + X^4 + X^5 + X^8, the polynomial of the 6250 code (document 000, "Implementation
// of ORC"): what the bits leave that a power of T moves out of a byte. The powers of a group's eight tracks move
// seven bits at most. Each is one look-up in read-only memory. They are two functions, since the tables, the numbers that they take and what
// they promise differ.

#![tactic(auto)]

ghost use Rattle.std.specs.Prelude.{◌≡◌, ◌<◌};
ghost use Rattle.register.specs.Matrix.{product};
ghost use Rattle.remainder.specs.Power.{eighth_power, seventh_inverse};

// T^8 times each number of seven bits.
static REDUCED: [u8; 128] = [
    0, 57, 114, 75, 228, 221, 150, 175, 241, 200, 131, 186, 21, 44, 103, 94, 219, 226, 169, 144,
    63, 6, 77, 116, 42, 19, 88, 97, 206, 247, 188, 133, 143, 182, 253, 196, 107, 82, 25, 32, 126,
    71, 12, 53, 154, 163, 232, 209, 84, 109, 38, 31, 176, 137, 194, 251, 165, 156, 215, 238, 65,
    120, 51, 10, 39, 30, 85, 108, 195, 250, 177, 136, 214, 239, 164, 157, 50, 11, 64, 121, 252,
    197, 142, 183, 24, 33, 106, 83, 13, 52, 127, 70, 233, 208, 155, 162, 168, 145, 218, 227, 76,
    117, 62, 7, 89, 96, 43, 18, 189, 132, 207, 246, 115, 74, 1, 56, 151, 174, 229, 220, 130, 187,
    240, 201, 102, 95, 20, 45,
];

// T^-7 times each byte.
static RESTORED: [u8; 256] = [
    0, 228, 241, 21, 219, 63, 42, 206, 143, 107, 126, 154, 84, 176, 165, 65, 39, 195, 214, 50, 252,
    24, 13, 233, 168, 76, 89, 189, 115, 151, 130, 102, 78, 170, 191, 91, 149, 113, 100, 128, 193,
    37, 48, 212, 26, 254, 235, 15, 105, 141, 152, 124, 178, 86, 67, 167, 230, 2, 23, 243, 61, 217,
    204, 40, 156, 120, 109, 137, 71, 163, 182, 82, 19, 247, 226, 6, 200, 44, 57, 221, 187, 95, 74,
    174, 96, 132, 145, 117, 52, 208, 197, 33, 239, 11, 30, 250, 210, 54, 35, 199, 9, 237, 248, 28,
    93, 185, 172, 72, 134, 98, 119, 147, 245, 17, 4, 224, 46, 202, 223, 59, 122, 158, 139, 111,
    161, 69, 80, 180, 1, 229, 240, 20, 218, 62, 43, 207, 142, 106, 127, 155, 85, 177, 164, 64, 38,
    194, 215, 51, 253, 25, 12, 232, 169, 77, 88, 188, 114, 150, 131, 103, 79, 171, 190, 90, 148,
    112, 101, 129, 192, 36, 49, 213, 27, 255, 234, 14, 104, 140, 153, 125, 179, 87, 66, 166, 231,
    3, 22, 242, 60, 216, 205, 41, 157, 121, 108, 136, 70, 162, 183, 83, 18, 246, 227, 7, 201, 45,
    56, 220, 186, 94, 75, 175, 97, 133, 144, 116, 53, 209, 196, 32, 238, 10, 31, 251, 211, 55, 34,
    198, 8, 236, 249, 29, 92, 184, 173, 73, 135, 99, 118, 146, 244, 16, 5, 225, 47, 203, 222, 58,
    123, 159, 138, 110, 160, 68, 81, 181,
];

// What seven bits leave that stand above a byte: T^8 times the number that they are.
pub fn reduced(high: u8) -> u64
    requires { high < 128 }
    ensures { result ≡ product eighth_power high }
{
    REDUCED[high as usize] as u64
}

// What seven bits leave that stand below a byte: T^-7 times the number that they are.
pub fn restored(low: u8) -> u64
    ensures { result ≡ product seventh_inverse low }
{
    RESTORED[low as usize] as u64
}
