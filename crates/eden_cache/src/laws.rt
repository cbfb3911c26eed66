ghost use Rattle.eden_cache.specs.Laws.{OneFront, FindsNoOther, FindsNoOtherSize, UseFindsTheSame, UseFindsTheSameSize};

/// What the equations of a cache's calls say of what is found in it.
///
/// So a fact that holds of each object with its key when it is put holds of each that is found, and likewise of sizes.
pub fn cache_laws()
    ensures one_front { OneFront }
    ensures others { FindsNoOther }
    ensures other_sizes { FindsNoOtherSize }
    ensures used { UseFindsTheSame }
    ensures used_sizes { UseFindsTheSameSize }
{}
