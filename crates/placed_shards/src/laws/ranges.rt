//! Laws of ranges of hashes.

ghost use Rattle.std.specs.Prelude.{◌≡◌, List, flat_map, Option, None};
ghost use Rattle.xet_base.specs.declared.merklehash.DataHash.{DataHash};
ghost use Rattle.placed_shards.specs.declared.range.HashRange.{HashRange};
ghost use Rattle.placed_shards.specs.Agreement.{IsAgreedUnionOf};
ghost use Rattle.placed_shards.specs.Content.{Content, AscendBoth, content_within};
ghost use Rattle.placed_shards.specs.Ranges.{ranges_between, AreCuts};
ghost use Rattle.placed_shards.specs.Unions.{IsUnionOf, IsDifferenceOf};

/// Law: what is outside a range can be left out before or after a union (`union`), a union of
/// shards that have to agree (`agreed`), or a difference (`difference`).
pub fn within_of_union()
    ensures union { (range : HashRange) → (c d made : Content) → IsUnionOf c d made
        → IsUnionOf (content_within range c) (content_within range d) (content_within range made) }
    ensures agreed { (range : HashRange) → (c d made : Content) → IsAgreedUnionOf c d made
        → IsAgreedUnionOf (content_within range c) (content_within range d)
        (content_within range made) }
    ensures difference { (range : HashRange) → (c d made : Content) → IsDifferenceOf c d made
        → IsDifferenceOf (content_within range c) (content_within range d)
        (content_within range made) }
{}

/// Law: of a shard whose hashes ascend, adjacent ranges have in turn the files and the xorbs
/// between the outer bounds (`files_between`, `xorbs_between`), without bounds all (`files`,
/// `xorbs`).
pub fn ranges_make_the_whole()
    ensures files { (cuts : List DataHash) → (c : Content) → AreCuts None cuts None → AscendBoth c
        → flat_map (λ range. (content_within range c).files) (ranges_between None cuts None)
        ≡ c.files }
    ensures xorbs { (cuts : List DataHash) → (c : Content) → AreCuts None cuts None → AscendBoth c
        → flat_map (λ range. (content_within range c).xorbs) (ranges_between None cuts None)
        ≡ c.xorbs }
    ensures files_between { (from : Option DataHash) → (cuts : List DataHash)
        → (to : Option DataHash) → (c : Content) → AreCuts from cuts to → AscendBoth c
        → flat_map (λ range. (content_within range c).files) (ranges_between from cuts to)
        ≡ (content_within (record { from = from; to = to }) c).files }
    ensures xorbs_between { (from : Option DataHash) → (cuts : List DataHash)
        → (to : Option DataHash) → (c : Content) → AreCuts from cuts to → AscendBoth c
        → flat_map (λ range. (content_within range c).xorbs) (ranges_between from cuts to)
        ≡ (content_within (record { from = from; to = to }) c).xorbs }
{}
