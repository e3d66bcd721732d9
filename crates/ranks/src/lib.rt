// Sets of ranks as numbers of one word: rank r is bit r - 1.
#![tactic(auto)]

ghost use Rattle.std.specs.Prelude.{◌≡◌, ◌≤◌};
ghost use Rattle.ranks.specs.Ranks as R;

// A set of ranks.
pub type RankSet = u64;

// The set without ranks.
pub const EMPTY: RankSet = 0;

// Whether the set has no rank.
pub fn is_empty(set: RankSet) -> bool
    ensures { result ≡ R.is_empty set }
{
    set == 0
}

// Whether the set has the rank.
pub fn contains(set: RankSet, rank: u8) -> bool
    requires { (1 ≤ rank) × (rank ≤ R.word_bits) }
    ensures { result ≡ R.member set rank }
{
    (set >> (rank - 1)) & 1 == 1
}

// The set with the rank put in.
pub fn with(set: RankSet, rank: u8) -> RankSet
    requires { (1 ≤ rank) × (rank ≤ R.word_bits) }
    ensures { result ≡ R.with set rank }
{
    set | (1 << (rank - 1))
}

// The set with the rank taken out.
pub fn without(set: RankSet, rank: u8) -> RankSet
    requires { (1 ≤ rank) × (rank ≤ R.word_bits) }
    ensures { result ≡ R.without set rank }
{
    set ^ (set & (1 << (rank - 1)))
}

// The most urgent rank of the set; where it is empty, one past all ranks that a set can have.
pub fn first(set: RankSet) -> u8
    ensures { result ≡ R.first R.word_bits set }
{
    (u64::trailing_zeros(set) + 1) as u8
}

// The most urgent rank of the set; 0 where it is empty.
pub fn most_urgent(set: RankSet) -> u8
    ensures { result ≡ R.most_urgent set }
{
    if set == 0 { 0 } else { first(set) }
}

// The ranks of both sets together.
pub fn union(a: RankSet, b: RankSet) -> RankSet
    ensures { result ≡ R.union a b }
{
    a | b
}

// The ranks that both sets have.
pub fn common(a: RankSet, b: RankSet) -> RankSet
    ensures { result ≡ R.common a b }
{
    a & b
}

// Whether every rank of the first set is in the second.
pub fn is_subset(a: RankSet, b: RankSet) -> bool
    ensures { result ≡ R.subset a b }
{
    a & b == a
}

// The ranks of the first set that are not in the second.
pub fn minus(a: RankSet, b: RankSet) -> RankSet
    ensures { result ≡ R.minus a b }
{
    a ^ (a & b)
}

// The ranks before the set's first, and its others; all ranks where it is empty.
pub fn less_one(set: RankSet) -> RankSet
    ensures { result ≡ R.less_one set }
{
    set.wrapping_sub(1)
}

// The ranks before the set's first; all ranks where it is empty.
pub fn before(set: RankSet) -> RankSet
    ensures { result ≡ R.before set }
{
    minus(less_one(set), set)
}

// The set without its first rank.
pub fn but_first(set: RankSet) -> RankSet
    ensures { result ≡ R.but_first set }
{
    common(set, less_one(set))
}

// The ranks from 1 to the count.
pub fn up_to(count: u8) -> RankSet
    requires { count ≤ R.word_bits }
    ensures { result ≡ R.up_to count }
{
    if count == 0 {
        0
    } else {
        0xffff_ffff_ffff_ffff >> (64 - count)
    }
}

// How many ranks the set has.
pub fn size(set: RankSet) -> usize
    ensures { result ≡ R.size set }
{
    u64::count_ones(set) as usize
}
