// The log of maps of changed tracks, stored at the front of the output: the bit map, and the maps that are not zero.
ghost use Rattle.std.specs.Prelude.{◌≡◌, ◌+◌, ◌≤◌, ◌<◌, length, get_or};
ghost use Rattle.std.proofs.lemmas.List.Edits.{sets};
ghost use Rattle.rectangular.specs.Constants.{most_groups};
ghost use Rattle.sense_log.specs.Log.{bit_map_length, log_space, standing, bit_map_byte, bit_map, map_bytes, log_of};

use sense_log::bit_map_length;

// The bit of a group; behind the last there is none.
fn standing_at(changed: &[u16], g: usize) -> u8
    ensures { result ≡ standing (get_or changed.now g 0) }
{
    (g < changed.len() && changed[g] != 0) as u8
}

// Byte b of the bit map: the bits of eight groups, the highest entered first.
fn bit_map_byte(changed: &[u16], b: usize) -> u8
    requires { b < most_groups }
    ensures { result ≡ bit_map_byte changed.now b }
{
    let mut byte: u8 = 0;
    for i in (0..8).rev() {
        byte = 2 * byte + standing_at(changed, 8 * b + i);
    }
    byte
}

// Stores the bit map, which has as many bytes as the output.
fn store_bit_map(changed: &[u16], bytes: &mut [u8])
    requires { (length changed.now ≤ most_groups) × (length bytes.old ≡ bit_map_length (length changed.now)) }
    ensures { bytes.new ≡ bit_map changed.now }
{
    for (b, byte) in bytes.iter_mut().enumerate() {
        *byte = bit_map_byte(changed, b);
    }
}

// Stores a group's map at a place, the low byte first, and tells the place behind; a map of no track is not stored.
fn store_map(map: u16, log: &mut [u8], at: usize) -> usize
    requires { at + 2 ≤ length log.old }
    ensures end { result ≡ at + length (map_bytes map) }
    ensures log { log.new ≡ sets log.old at (map_bytes map) }
{
    if map == 0 {
        return at;
    }
    log[at..at + 2].copy_from_slice(&map.to_le_bytes());
    at + 2
}

// Stores the log of the maps of changed tracks, and tells its length.
pub(crate) fn store_log(changed: &[u16], log: &mut [u8]) -> usize
    requires { (length changed.now ≤ most_groups) × (log_space (length changed.now) ≤ length log.old) }
    ensures length { result ≡ length (log_of changed.now) }
    ensures log { log.new ≡ sets log.old 0 (log_of changed.now) }
{
    let front = bit_map_length(changed.len());
    store_bit_map(changed, &mut log[..front]);
    let mut end = front;
    for map in changed {
        end = store_map(*map, log, end);
    }
    end
}
