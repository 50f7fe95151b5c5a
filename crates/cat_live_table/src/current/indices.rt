//! Which index each segment has.
ghost use Rattle.std.specs.Prelude.{◌≡◌, ◌≢◌, ◌≤◌, ℕ, None, length, nat_eq, AllPairs};
ghost use Rattle.std.specs.HashMap.{get, hash_map_len, spare};
ghost use Rattle.cat_live_table.specs.current.Indices.{index_in};

use cat_base::SegNo;
use cat_views::Leaf;
use std::collections::HashMap;

/// Notes the index of each leaf, where none is noted yet. There is room for them.
pub(crate) fn index_all(indices: &mut HashMap<SegNo, usize>, leaves: &[Leaf])
    requires none { (n : ℕ) → get nat_eq indices.old n ≡ None }
    requires empty { hash_map_len indices.old ≡ 0 }
    requires room { length leaves.now ≤ spare indices.old }
    requires apart { AllPairs (λ a b. a.segment.number ≢ b.segment.number) leaves.now }
    ensures indexed { (n : ℕ) → get nat_eq indices.new n ≡ index_in n leaves.now }
    ensures counted { hash_map_len indices.new ≡ length leaves.now }
{
    for (index, leaf) in leaves.iter().enumerate() {
        let indexed: Result<_, _> = indices.insert(leaf.segment().number(), index);
        let _before = indexed.unwrap();
    }
}
