//! What a pass has seen.
use std::marker::Model;

/// What a pass has seen of the list. No value of it is made.
pub struct Sight {
    nothing: (),
}

impl Model for Sight {
    ghost use Rattle.std.specs.Coded.{codes};
    ghost use Rattle.cat_commands.specs.cat_cached_sets.cache.Coding.{query_code};
    ghost use Rattle.cat_threads.specs.history.Rules as rules;

    ghost Value = { rules.Sight };

    ghost coded = { Prim.hlevel (codes, query_code) };

    ghost view = { λ s. rules.nobody };
}
