// The bit map at the front of a log: a bit for each group, group 0 in bit 0 of the first byte.
ghost use Rattle.std.specs.Prelude.{◌≡◌, ◌%◌, ◌^◌, ◌<◌, ◌≤◌, length, sum_by};
ghost use Rattle.std.specs.Int.Count.{ones};
ghost use Rattle.rectangular.specs.Constants.{most_groups};
ghost use Rattle.sense_log.specs.Back.{standing_bits, spare_clear};
ghost use Rattle.sense_log.specs.Log.{bit_map_length};

// How many of a byte's lowest bits stand.
fn lowest_ones(byte: u8, bits: usize) -> usize
    requires { bits < 8 }
    ensures { result ≡ ones (byte % 2 ^ bits) }
{
    (byte % (1 << bits)).count_ones() as usize
}

// How many bits stand in some bytes. A loop over them: a log of 586 groups with no mark was read up to a quarter slower by `map` and `sum`,
// whose loop as compiled is slow at half of the places where it can lie.
fn ones_of(bytes: &[u8]) -> usize
    requires { length bytes.now ≤ most_groups }
    ensures { result ≡ sum_by ones bytes.now }
{
    let mut count = 0;
    for byte in bytes {
        count += byte.count_ones() as usize;
    }
    count
}

// How many of the groups' bits stand, byte by byte; spare bits behind them do not count.
pub(crate) fn standing_bits(log: &[u8], groups: usize) -> usize
    requires { (groups ≤ most_groups) × (bit_map_length groups ≤ length log.now) }
    ensures { result ≡ standing_bits log.now groups }
{
    let whole = groups / 8;
    let left = groups % 8;
    let count = ones_of(&log[..whole]);
    if left == 0 {
        return count;
    }
    count + lowest_ones(log[whole], left)
}

// Whether the spare bits, behind those of the groups, are zero: eight groups to a byte leave none.
pub(crate) fn spare_clear(log: &[u8], groups: usize) -> bool
    requires { bit_map_length groups ≤ length log.now }
    ensures { result ≡ spare_clear groups log.now }
{
    let left = groups % 8;
    left == 0 || log[groups / 8] >> left == 0
}
