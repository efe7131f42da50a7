//! A placement: a kind, and a closure that ranks blocks for it.

ghost use Rattle.std.specs.Prelude.{◌≡◌};
ghost use Rattle.place_policy.specs.Ranks.{AnswersRanks};
ghost use Rattle.tsd_model.specs.Rank.{rank_of};

use tsd_model::PlaceKind;

/// Ranks a block for a hint: `rank(hint, block)`. The block of least rank is taken first.
pub type RankFn = Box<dyn Fn(u32, u32) -> u64>;

/// A kind of placement, and the closure that ranks for it.
#[derive(Drop)]
pub struct Placement {
    /// The kind that it ranks for.
    pub kind: PlaceKind,

    ranks: RankFn,
    ghost callable: { RankFn.IsAlwaysCallable ranks },
    ghost answers: { AnswersRanks kind (RankFn.post ranks) },
}

impl Placement {
    /// A placement of a kind. The closure may be called on every hint and block, and answers the rank.
    pub fn new(kind: PlaceKind, rank: RankFn) -> Placement
        requires callable { RankFn.IsAlwaysCallable rank }
        requires answers { AnswersRanks kind (RankFn.post rank) }
        ensures kind { result.kind ≡ kind }
        ensures ranks { result.ranks ≡ rank }
    {
        Placement { kind, ranks: rank }
    }

    /// Its kind.
    pub fn kind(&self) -> PlaceKind
        ensures { result ≡ self.now.kind }
    {
        self.kind
    }

    /// The rank of a block for a hint, which the stored closure answers.
    pub fn rank(&self, hint: u32, block: u32) -> u64
        /// promise: The rank of the block for the hint, by the placement's kind.
        ensures value { result ≡ rank_of self.now.kind hint block }
        /// promise: The rank is an answer of the stored closure.
        ensures answered { RankFn.post self.now.ranks hint block result }
    {
        (self.ranks)(hint, block)
    }
}
