// A number in two bytes, low one first, as a log holds its maps.
ghost use Rattle.std.specs.Prelude.{◌≡◌, ◌+◌, ◌*◌, ◌<◌, length};
ghost use Rattle.sense_log.specs.Pair.{pair_at};

// The number whose two bytes stand from an index on.
pub fn pair_at(bytes: &[u8], at: usize) -> u16
    requires { at + 1 < length bytes.now }
    ensures { result ≡ pair_at bytes.now at }
{
    u16::from_le_bytes([bytes[at], bytes[at + 1]])
}
