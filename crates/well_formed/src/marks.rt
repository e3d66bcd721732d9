// What refusal 8 asks of the certified objects.
ghost use Rattle.std.specs.Prelude.{◌≡◌, ◌+◌, ◌^◌, ◌≤◌, ◌<◌};
ghost use Rattle.basics.specs.Loops.{every};
ghost use Rattle.basics.specs.Arrays.{at};
ghost use Rattle.ranks.specs.Ranks.{word_bits, is_empty, union};
ghost use Rattle.state.specs.State.{most_objects};
ghost use Rattle.state.specs.Lent.{state_in};
ghost use Rattle.well_formed.specs.Survey.{certifiable, word_fits, certified_well};

use state::Parts;

// Whether an object may be certified: it is written and not read.
fn certifiable(parts: &Parts, object: usize) -> bool
    requires { (1 ≤ object) × (object ≤ most_objects) }
    ensures { result ≡ certifiable (at parts.now.readers.now object) (at parts.now.writers.now object) }
{
    let i = object - 1;
    !ranks::is_empty(parts.writers[i]) & ranks::is_empty(parts.readers[i])
}

// Whether each object in a word of a set, whose places stand behind an index, may be certified.
fn word_fits(parts: &Parts, word: u64, from: usize) -> bool
    requires { from + 64 ≤ most_objects }
    ensures { result ≡ word_fits word from (state_in parts.now) }
{
    let mut rest = word;
    while !ranks::is_empty(rest) {
        let place = ranks::first(rest);
        if !certifiable(parts, from + place as usize) {
            return false;
        }
        rest = ranks::without(rest, place);
    }
    true
}

// Whether two words have no bit, and that they are words.
fn both_empty(low: u64, high: u64) -> bool
    ensures { (result ≡ is_empty (union low high)) × (low < 2 ^ word_bits) × (high < 2 ^ word_bits) }
{
    ranks::is_empty(ranks::union(low, high))
}

// Whether the certified objects are those of a table of version 2, and each may be.
pub fn certified_well(parts: &Parts) -> bool
    ensures { result ≡ every most_objects (certified_well (state_in parts.now)) }
{
    let low = parts.certified[0];
    let high = parts.certified[1];
    if both_empty(low, high) {
        return true;
    }
    (parts.counts.version == 2) & word_fits(parts, low, 0) & word_fits(parts, high, 64)
}
