// What is asked of slices that are lent, at both densities: which bits stand in any of the values, where one is above a
// limit, and where an element of the forward picture stands among those that come last first.

#![tactic(auto)]

ghost use Rattle.std.specs.Prelude.{◌≡◌, ◌<◌, length};
ghost use Rattle.indexed.specs.List.{index_in};
ghost use Rattle.slices.specs.Above.{first_above};
ghost use Rattle.slices.specs.Turned.{turned_place};
ghost use Rattle.slices.specs.Union.{union_of};

// The bits that stand in any of the values.
pub fn union(values: &[u16]) -> u16
    ensures { result ≡ union_of values.now }
{
    let mut bits: u16 = 0;
    for value in values {
        bits |= *value;
    }
    bits
}

// The index of the first value above the limit.
pub fn first_above(values: &[u16], limit: u16) -> Option<usize>
    ensures { result ≡ index_in (length values.now) (first_above limit values.now) }
{
    values.iter().position(|value| *value > limit)
}

// The place of element k of the forward picture among the lent ones, of which a backward reading has the last
// first.
pub fn turned_place(backward: bool, count: usize, k: usize) -> usize
    requires { k < count }
    ensures place { result ≡ turned_place backward count k }
    ensures within { result < count }
{
    if backward { count - 1 - k } else { k }
}
